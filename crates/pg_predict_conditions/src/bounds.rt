//! The bounds of starts: the lowest and the highest character that a start can begin with, and how a key continues.
//!
//! Two starts whose bounds don't overlap are apart, and so are two keys that continue with different characters; two classes that
//! share a bound aren't. So comparisons of numbers that lie side by side decide most pairs without a look at
//! the starts themselves: thousands of keywords may begin with one letter. `apart` decides the other pairs (`met_starts.rt`).
ghost use Rattle.std.specs.Prelude.{◌≡◌, ◌↔◌, true, false, IfOk, IfSome, IsTrue, Some, slice_get};
ghost use Rattle.std.specs.Char.{IsScalar};
ghost use Rattle.pg_class.specs.Ranges.{has};
ghost use Rattle.pg_predict_conditions.specs.Bounds.{AreBoundsOf, AreStartBounds, AreBounds, IsFurther, IsNotFurther, DontOverlap, Differ, GoOnApart, TellApart, ShareAnEnd};

use pg_class::Class;
use pg_sets_own::ListedStart;
use pg_start::{Start, StartKind};
use std::alloc::{AllocError, Global};

/// The lowest and the highest of some characters.
#[derive(Debug, Clone, Copy)]
pub(crate) struct Bounds {
    pub(crate) lowest: char,
    pub(crate) highest: char,
    /// Whether a class begins the start, so that any character of the class can begin it.
    pub(crate) of_class: bool,
    /// The second, third and fourth character of a key, as far as it has them.
    pub(crate) second: Option<char>,
    pub(crate) third: Option<char>,
    pub(crate) fourth: Option<char>,
}

/// The bounds of each of the starts.
pub(crate) fn bounds_of_starts(
    alloc: Global,
    starts: &[ListedStart],
) -> Result<Vec<Option<Bounds>>, AllocError>
    ensures { IfOk result (λ bounds. AreBounds starts.now bounds.items) }
{
    let mut bounds = Vec::new(alloc);
    for listed in starts {
        bounds.push(bounds_of(&listed.start))?;
    }
    Ok(bounds)
}

/// The bounds of what a start can begin with; none for the end of the text and for an empty class.
pub(crate) fn bounds_of(start: &Start) -> Option<Bounds>
    ensures { AreStartBounds start.now result }
{
    match start.view() {
        StartKind::Class(class) => bounds_of_class(class),
        StartKind::Key(key, _) => bounds_of_key(key.as_slice()),
        StartKind::Word(heads, _, _) => bounds_of_class(heads),
        StartKind::End => None,
    }
}

/// The bounds of a class, from its first and its last range: ranges ascend.
fn bounds_of_class(class: &Class) -> Option<Bounds>
    ensures bounds { AreBoundsOf (λ c. has class.now c ≡ true) result }
    ensures characters { IfSome result (λ bounds. IsScalar bounds.lowest × IsScalar bounds.highest) }
    ensures further { IfSome result IsNotFurther }
{
    let first = class.ranges().first()?;
    let last = class.ranges().last()?;
    Some(Bounds {
        lowest: first.0,
        highest: last.1,
        of_class: true,
        second: None,
        third: None,
        fourth: None,
    })
}

/// The bounds of a key: its first character is both.
fn bounds_of_key(key: &[char]) -> Option<Bounds>
    ensures bounds { AreBoundsOf (λ c. slice_get key.now 0 ≡ Some c) result }
    ensures class { IfSome result (λ bounds. bounds.of_class ≡ false) }
    ensures further { IfSome result (IsFurther key.now) }
{
    let first = key.first()?;
    Some(Bounds {
        lowest: *first,
        highest: *first,
        of_class: false,
        second: key.get(1).copied(),
        third: key.get(2).copied(),
        fourth: key.get(3).copied(),
    })
}

/// Whether the bounds of two starts show that these are apart.
#[inline]
pub(crate) fn tell_apart(one: &Option<Bounds>, other: &Option<Bounds>) -> bool
    ensures { IsTrue result ↔ TellApart one.now other.now }
{
    dont_overlap(one, other) || go_on_apart(one, other)
}

/// Whether both have bounds, and one ends before the other begins.
#[inline]
fn dont_overlap(one: &Option<Bounds>, other: &Option<Bounds>) -> bool
    ensures { IsTrue result ↔ DontOverlap one.now other.now }
{
    match (one, other) {
        (Some(one), Some(other)) => one.highest < other.lowest || other.highest < one.lowest,
        (None, _) | (_, None) => false,
    }
}

/// Whether both are keys, and they continue with different characters. Such keys are apart.
#[inline]
fn go_on_apart(one: &Option<Bounds>, other: &Option<Bounds>) -> bool
    ensures { IsTrue result ↔ GoOnApart one.now other.now }
{
    match (one, other) {
        (Some(one), Some(other)) => {
            differ(one.second, other.second)
                || differ(one.third, other.third)
                || differ(one.fourth, other.fourth)
        }
        (None, _) | (_, None) => false,
    }
}

/// Whether both characters exist and differ.
#[inline]
fn differ(one: Option<char>, other: Option<char>) -> bool
    ensures { IsTrue result ↔ Differ one other }
{
    match (one, other) {
        (Some(one), Some(other)) => one != other,
        (None, _) | (_, None) => false,
    }
}

/// Whether both are classes, and have the same lowest or the same highest character. Starts with such bounds meet.
#[inline]
pub(crate) fn share_an_end(one: &Option<Bounds>, other: &Option<Bounds>) -> bool
    ensures { IsTrue result ↔ ShareAnEnd one.now other.now }
{
    match (one, other) {
        (Some(one), Some(other)) => {
            one.of_class
                && other.of_class
                && (one.lowest == other.lowest || one.highest == other.highest)
        }
        (None, _) | (_, None) => false,
    }
}
