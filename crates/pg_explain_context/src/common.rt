//! A character that begins both of two starts.
//!
//! It is the least printable one, so that people can type it.
ghost use Rattle.std.specs.Prelude.{◌≡◌, ◌⊎◌, true, IfSome};
ghost use Rattle.pg_class.specs.Ranges.{has};

use pg_class::Class;
use pg_start::{Start, StartKind};

/// What a start begins with.
#[derive(Clone, Copy)]
enum Front<'s> {
    /// A character of the class.
    Class(&'s Class),
    /// This character.
    One(char),
    /// No character: the end of the text.
    None,
}

/// A character that begins both starts, given that they meet: the first of a key, or the least printable one of both classes. `None` if one is the end of the
/// text.
pub fn common_character(one: &Start, other: &Start) -> Option<char> {
    match (front_of(one), front_of(other)) {
        (Front::One(c), _) | (_, Front::One(c)) => Some(c),
        (Front::Class(one), Front::Class(other)) => least_printable(one, other),
        (Front::None, _) | (_, Front::None) => None,
    }
}

/// What a start begins with.
fn front_of(start: &Start) -> Front<'_> {
    match start.view() {
        StartKind::Class(class) => Front::Class(class),
        StartKind::Key(key, _) => match key.as_slice() {
            [first, ..] => Front::One(*first),
            [] => Front::None,
        },
        StartKind::Word(heads, _, _) => Front::Class(heads),
        StartKind::End => Front::None,
    }
}

/// The least visible character of both classes, else a space, else any other, from the lowest up.
fn least_printable(one: &Class, other: &Class) -> Option<char>
    ensures one { IfSome result (λ c. has one.now c ≡ true) }
    ensures other { IfSome result (λ c. has other.now c ≡ true) }
{
    least_between(one, other, '!', '~')
        .or(least_between(one, other, ' ', ' '))
        .or(least_between(one, other, '\u{a1}', char::MAX))
        .or(least_between(one, other, '\0', char::MAX))
}

/// A character of both classes from `low` to `high`, both included: `low`, or the lesser of the first characters that begin a range of either class.
fn least_between(one: &Class, other: &Class, low: char, high: char) -> Option<char>
    ensures one { IfSome result (λ c. has one.now c ≡ true) }
    ensures other { IfSome result (λ c. has other.now c ≡ true) }
{
    if one.has(low) && other.has(low) {
        return Some(low);
    }
    let begun = least_begun(one, other, one, low, high);
    let begun_other = least_begun(one, other, other, low, high);
    lesser(begun, begun_other)
}

/// The first character from `low` to `high` that begins a range of `begun` and is in both classes.
fn least_begun(one: &Class, other: &Class, begun: &Class, low: char, high: char) -> Option<char>
    ensures one { IfSome result (λ c. has one.now c ≡ true) }
    ensures other { IfSome result (λ c. has other.now c ≡ true) }
{
    for range in begun.ranges() {
        let first = range.0;
        if low <= first && first <= high && one.has(first) && other.has(first) {
            return Some(first);
        }
    }
    None
}

/// The lesser of two characters, or the only one.
fn lesser(one: Option<char>, other: Option<char>) -> Option<char>
    ensures { (result ≡ one) ⊎ (result ≡ other) }
{
    match (one, other) {
        (Some(a), Some(b)) if b < a => other,
        (Some(_), _) => one,
        (None, _) => other,
    }
}
