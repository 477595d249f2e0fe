//! How many base forms a value stands for, counted without making them.
//!
//! Short forms use a part twice, so a value of a few forms can stand for more nodes than fit into memory. The forms are read in the order in which they are
//! replaced, and a number above the most nodes of a grammar is counted as one above it.

ghost use Rattle.std.specs.Prelude.{◌≡◌, ◌+◌, ◌∷◌, [], take, drop, IfOk};
ghost use Rattle.pg_file_items.specs.Entries.{forms_of};
ghost use Rattle.pg_file_items.specs.Sizes as sizes;
ghost use Rattle.pg_file_items.specs.Sizes.{counted, part_count, size_at, sum_of, size_of_form};

use crate::item::PlacedForm;
use crate::words::{OneForm, SomeForm, TwoForm};
use crate::written::WrittenForm;
use pg_grammar_form::NODE_LIMIT;
use std::alloc::{AllocError, Global};
use std::collections::VecDeque;

/// How many base forms the value with these forms stands for. Any number above 8,192 is counted as 8,193.
pub fn body_size(alloc: Global, forms: &[PlacedForm]) -> Result<usize, AllocError>
    ensures { IfOk result (λ size. size ≡ counted (sizes.body_size (forms_of forms.now))) }
{
    let mut waiting = VecDeque::new(alloc);
    let mut rest = forms;
    while let Some((form, before)) = rest.split_last() {
        let size = size_of_form(&form.form, &mut waiting);
        waiting.push_front(size)?;
        rest = before;
    }
    Ok(next_size(&mut waiting))
}

/// The sum of two numbers, counted.
fn sum(one: usize, other: usize) -> usize
    ensures { result ≡ counted (one + other) }
{
    one.saturating_add(other).min(NODE_LIMIT + 1)
}

/// Takes the first size out; 0 if there is none.
fn next_size(waiting: &mut VecDeque<usize>) -> usize
    ensures first { result ≡ size_at 0 waiting.old.items }
    ensures rest { waiting.new.items ≡ drop 1 waiting.old.items }
{
    waiting.pop_front().unwrap_or(0)
}

/// Takes the first `count` sizes out, and returns their sum, counted.
fn next_sum(waiting: &mut VecDeque<usize>, count: usize) -> usize
    ensures sum { result ≡ counted (sum_of (take count waiting.old.items)) }
    ensures rest { waiting.new.items ≡ drop count waiting.old.items }
{
    let mut total = 0;
    for _ in 0..count {
        let Some(size) = waiting.pop_front() else {
            break;
        };
        total = sum(total, size);
    }
    total
}

/// How many base forms a form stands for. The sizes of its parts are taken out of those that wait.
fn size_of_form(form: &WrittenForm, waiting: &mut VecDeque<usize>) -> usize
    ensures size { result ≡ counted (size_of_form form.now (take (part_count form.now) waiting.old.items)) }
    ensures rest { waiting.new.items ≡ drop (part_count form.now) waiting.old.items }
{
    match form {
        WrittenForm::Seq(count) => sum(1, next_sum(waiting, *count)),
        WrittenForm::OfSome(form, count) => some_size(*form, *count, next_sum(waiting, *count)),
        WrittenForm::OfOne(form) => one_size(*form, next_size(waiting)),
        WrittenForm::OfTwo(form) => {
            let size = next_size(waiting);
            let separator = next_size(waiting);
            two_size(*form, size, separator)
        }
        WrittenForm::Between => sum(3, next_sum(waiting, 3)),
        WrittenForm::Chain { .. } => sum(1, next_sum(waiting, 2)),
        WrittenForm::Expression { .. } | WrittenForm::Build { .. } | WrittenForm::Label(_) => {
            sum(1, next_size(waiting))
        }
        WrittenForm::OfClass(_, _)
        | WrittenForm::String(_)
        | WrittenForm::EndOfText
        | WrittenForm::Word(_)
        | WrittenForm::Rule(_) => 1,
    }
}

/// The size of a form of `count` values whose sizes have this sum. Several values of a `try` or a `local` are a `seq` in it.
fn some_size(form: SomeForm, count: usize, values: usize) -> usize
    ensures { result ≡ counted (sizes.some_size form count (values ∷ [])) }
{
    match form {
        SomeForm::Choice => sum(1, values),
        SomeForm::Try | SomeForm::Local if count == 1 => sum(1, values),
        SomeForm::Try | SomeForm::Local => sum(2, values),
    }
}

/// The size of a form of one value.
fn one_size(form: OneForm, value: usize) -> usize
    ensures { result ≡ counted (sizes.one_size form value) }
{
    match form {
        OneForm::Many | OneForm::Text | OneForm::Skip => sum(1, value),
        OneForm::Many1 => sum(2, sum(value, value)),
        OneForm::Option => sum(2, value),
    }
}

/// The size of a form of a value and a separator.
fn two_size(form: TwoForm, value: usize, separator: usize) -> usize
    ensures { result ≡ counted (sizes.two_size form value separator) }
{
    match form {
        TwoForm::SepBy => sum(6, sum(value, sum(value, separator))),
        TwoForm::SepBy1 => sum(4, sum(value, sum(value, separator))),
        TwoForm::EndBy => sum(3, sum(value, separator)),
    }
}
