//! Labels by their numbers.

ghost use Rattle.std.specs.Prelude.{◌≡◌, ◌<◌, true, IfOk, IfSome};
ghost use Rattle.pg_tree_placed.specs.Named.{IsNumber, Extends, label_at};

use pg_tree::Label;
use std::alloc::{AllocError, Global};

/// How many of the last labels are looked at for the number of one. So a node of a grammar with many labels doesn't pay for all of them.
const LOOKED_AT: usize = 64;

/// The number that each label had when it was looked for last, at a place that its text gives. What stands there may be another label's, or none's: it is
/// compared before it is taken.
#[derive(Clone, Copy)]
pub(crate) struct Guesses {
    numbers: [u16; 64],
}

impl Guesses {
    /// No numbers.
    pub(crate) fn new() -> Guesses {
        Guesses { numbers: [0; 64] }
    }

    /// The number that was noted for a text. The label may be another one.
    #[inline(always)]
    fn noted(&self, text: &str) -> usize {
        usize::from(self.numbers[place_of(text.as_bytes())])
    }

    /// The number of a label, if it is the one that was noted.
    pub(crate) fn number(&self, labels: &[Label], text: &str) -> Option<usize>
        ensures { IfSome result (λ n. IsNumber labels.now n text.now) }
    {
        let number = self.noted(text);
        if number < labels.len() && is_text(labels[number].as_str(), text) {
            Some(number)
        } else {
            None
        }
    }

    /// The same, where the label is short as well.
    #[inline(always)]
    pub(crate) fn short_number(&self, labels: &[Label], text: &str) -> Option<usize>
        ensures { IfSome result (λ n. IsNumber labels.now n text.now) }
    {
        let number = self.noted(text);
        if number < labels.len() && is_short_text(labels[number].as_str(), text) {
            Some(number)
        } else {
            None
        }
    }

    /// Notes the number of a label, if it isn't too large.
    pub(crate) fn note(&mut self, text: &str, number: usize) {
        if let Ok(number) = u16::try_from(number) {
            self.numbers[place_of(text.as_bytes())] = number;
        }
    }
}

/// The place of a text, by its first byte and its last: most labels of a grammar differ in them.
#[inline(always)]
fn place_of(text: &[u8]) -> usize
    ensures { result < 64 }
{
    match (text.first(), text.last()) {
        (Some(first), Some(last)) => (usize::from(*first) + 2 * usize::from(*last)) % 64,
        (Some(_) | None, _) => 0,
    }
}

/// The number of a label, which is put at the end where it isn't among the last.
pub(crate) fn number_of(
    alloc: Global,
    labels: &mut Vec<Label>,
    label: &str,
) -> Result<usize, AllocError>
    ensures number { IfOk result (λ n. IsNumber labels.new.items n label.now) }
    ensures others { Extends labels.old.items labels.new.items }
{
    match found(labels.as_slice(), label) {
        Some(number) => Ok(number),
        None => {
            let own = String::from_str(alloc, label)?;
            labels.push(Label::new(own))?;
            Ok(labels.len() - 1)
        }
    }
}

/// The number of a label, if it is one of the last that were noted.
fn found(labels: &[Label], label: &str) -> Option<usize>
    ensures { IfSome result (λ n. IsNumber labels.now n label.now) }
{
    for i in labels.len().saturating_sub(LOOKED_AT)..labels.len() {
        if is_text(labels[i].as_str(), label) {
            return Some(i);
        }
    }
    None
}

/// Whether a label has this text. Most others have another length.
#[inline(always)]
fn is_text(own: &str, text: &str) -> bool
    ensures { result ≡ true → own.now ≡ text.now }
{
    own.len() == text.len() && are_equal(own, text)
}

/// Whether a label is short and has this text. It calls nothing, so that what is known around it stays in registers.
#[inline(always)]
fn is_short_text(own: &str, text: &str) -> bool
    ensures { result ≡ true → own.now ≡ text.now }
{
    own.len() == text.len() && are_short_equal(own, text)
}

/// Whether these texts of one length are short and equal. Most labels that are used in turn have few bytes.
#[inline(always)]
fn are_short_equal(some: &str, others: &str) -> bool
    ensures { result ≡ true → some.now ≡ others.now }
{
    match (some.as_bytes(), others.as_bytes()) {
        ([a], [x]) => *a == *x,
        ([a, b], [x, y]) => *a == *x && *b == *y,
        ([a, b, c], [x, y, z]) => *a == *x && *b == *y && *c == *z,
        (_, bytes) => bytes.len() < 8 && some == others,
    }
}

/// Whether these texts are equal.
fn are_equal(some: &str, others: &str) -> bool
    ensures { result ≡ true → some.now ≡ others.now }
{
    some == others
}

/// The label with this number.
pub(crate) fn named(labels: &[Label], number: usize) -> &str
    ensures { result.now ≡ label_at labels.now number }
{
    match labels.get(number) {
        Some(label) => label.as_str(),
        None => "",
    }
}
