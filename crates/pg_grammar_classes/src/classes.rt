//! The classes of class expressions.
//!
//! An expression is read from its last part to its first, with a stack of the classes of the whole expressions read so
//! far: a union pops its members, a complement pops its one expression.
ghost use Rattle.std.specs.Prelude.{◌≡◌, ◌≤◌, ◌==◌, ◌&&◌, ◌∷◌, ℕ, nat_le, take, drop, length, All, IfOk, OnOk};
ghost use Rattle.std.specs.Char.{IsScalar};
ghost use Rattle.std.specs.List.{list_any};
ghost use Rattle.pg_class.specs.Ranges.{IsClass, has};
ghost use Rattle.pg_grammar_form.specs.Classes.{one_holds, first_negated, answer_at};
ghost use Rattle.pg_grammar_classes.specs.Classes.{answers_of, with_part};
ghost use Rattle.pg_grammar_classes.specs.Sets.{AreItemSets, IsSetBy};

use pg_class::{Class, ClassFault};
use pg_grammar_form::{ClassExpression, ClassItem, ClassPart};
use std::alloc::{AllocError, Global};
use std::collections::VecDeque;

/// The classes of the class items, in file order.
pub fn classes_of_items(alloc: Global, items: &[ClassItem]) -> Result<Vec<Class>, AllocError>
    ensures { IfOk result (λ classes. AreItemSets items.now classes.items) }
{
    let mut classes = Vec::new(alloc);
    for item in items {
        let class = class_of(alloc, classes.as_slice(), &item.class)?;
        classes.push(class)?;
    }
    Ok(classes)
}

/// The class of a class expression, given the classes of the class items.
pub fn class_of(
    alloc: Global,
    items: &[Class],
    expression: &ClassExpression,
) -> Result<Class, AllocError>
    ensures { IfOk result (IsSetBy items.now expression.now) }
{
    let mut stack = VecDeque::new(alloc);
    let mut rest = expression.parts();
    while let Some((part, before)) = rest.split_last() {
        push_part(alloc, items, part, &mut stack)?;
        rest = before;
    }
    first_of(alloc, &mut stack)
}

/// Pops the first class; the empty class if there is none.
fn first_of(alloc: Global, stack: &mut VecDeque<Class>) -> Result<Class, AllocError>
    ensures class { IfOk result (λ class. (c : ℕ) → IsScalar c → has class c ≡ one_holds (take 1 (answers_of stack.old.items c))) }
    ensures rest { stack.new.items ≡ drop 1 stack.old.items }
{
    match stack.pop_front() {
        Some(class) => Ok(class),
        None => class_in(alloc, &[]),
    }
}

/// Pushes the class of the expression that a part begins, which pops those of its members.
fn push_part(
    alloc: Global,
    items: &[Class],
    part: &ClassPart,
    stack: &mut VecDeque<Class>,
) -> Result<(), AllocError>
    ensures { OnOk result ((c : ℕ) → IsScalar c →
        answers_of stack.new.items c ≡ with_part (answers_of items.now c) c part.now (answers_of stack.old.items c)) }
{
    match part {
        ClassPart::Literal(characters) => {
            push(stack, class_of_each(alloc, characters.as_slice())?)
        }
        ClassPart::Range(low, high) => push(stack, class_between(alloc, *low, *high)?),
        ClassPart::Union(count) => push_union(alloc, *count, stack),
        ClassPart::Complement => push_complement(alloc, stack),
        ClassPart::Class(item) => push(stack, class_at(alloc, items, item.index())?),
        ClassPart::Predicate(used) => push(stack, used.class.share()?),
    }
}

/// Pushes a class.
fn push(stack: &mut VecDeque<Class>, class: Class) -> Result<(), AllocError>
    ensures { OnOk result (stack.new.items ≡ class ∷ stack.old.items) }
{
    stack.push_front(class)?;
    Ok(())
}

/// Pops `count` classes and pushes their union.
fn push_union(alloc: Global, count: usize, stack: &mut VecDeque<Class>) -> Result<(), AllocError>
    ensures { OnOk result ((c : ℕ) → IsScalar c → answers_of stack.new.items c ≡
        one_holds (take count (answers_of stack.old.items c)) ∷ drop count (answers_of stack.old.items c)) }
{
    let mut members = VecDeque::new(alloc);
    for _taken in 0..count {
        let class = first_of(alloc, stack)?;
        members.push_back(class)?;
    }
    let union = Class::union_of(alloc, members)?;
    push(stack, union)
}

/// Replaces the first class by its complement.
fn push_complement(alloc: Global, stack: &mut VecDeque<Class>) -> Result<(), AllocError>
    ensures { OnOk result ((c : ℕ) → IsScalar c →
        answers_of stack.new.items c ≡ first_negated (answers_of stack.old.items c)) }
{
    match stack.pop_front() {
        Some(class) => push(stack, class.complement(alloc)?),
        None => Ok(()),
    }
}

/// The class of a class item; the empty class if there is no such item.
fn class_at(alloc: Global, items: &[Class], item: usize) -> Result<Class, AllocError>
    ensures { IfOk result (λ class. (c : ℕ) → IsScalar c → has class c ≡ answer_at (answers_of items.now c) item) }
{
    match items.get(item) {
        Some(class) => class.share(),
        None => class_in(alloc, &[]),
    }
}

/// The class of these characters.
fn class_of_each(alloc: Global, characters: &[char]) -> Result<Class, AllocError>
    ensures { IfOk result (λ class. (c : ℕ) → IsScalar c → has class c ≡ list_any (λ x. x == c) characters.now) }
{
    let mut ranges = Vec::new(alloc);
    for character in characters {
        ranges.push((*character, *character))?;
    }
    class_in(alloc, ranges.as_slice())
}

/// The class of the characters from one to another, both included; empty if the second is below the first.
pub fn class_between(alloc: Global, low: char, high: char) -> Result<Class, AllocError>
    ensures { IfOk result (λ class. (c : ℕ) → IsScalar c → has class c ≡ (nat_le low c && nat_le c high)) }
{
    if low <= high {
        class_in(alloc, &[(low, high)])
    } else {
        class_in(alloc, &[])
    }
}

/// The class of the characters in these ranges. None of them descends.
pub fn class_in(alloc: Global, ranges: &[(char, char)]) -> Result<Class, AllocError>
    requires { All (λ range. range.0 ≤ range.1) ranges.now }
    ensures { IfOk result (λ class. (c : ℕ) → IsScalar c → has class c ≡ has ranges.now c) }
{
    match Class::from_ranges(alloc, ranges) {
        Ok(class) => Ok(class),
        Err(ClassFault::Memory) => Err(AllocError),
        Err(ClassFault::Descends) => unreachable!(),
    }
}
