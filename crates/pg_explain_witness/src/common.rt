//! A character that begins both of two starts.

use pg_class::Class;
use pg_start::{Start, StartKind};

/// A character that begins both starts, if there is one: the first of a key, or the least printable one of both classes.
pub(crate) fn common_character(one: &Start, other: &Start) -> Option<char> {
    if let Some(c) = key_front(one) {
        return Some(c);
    }
    if let Some(c) = key_front(other) {
        return Some(c);
    }
    common_of(class_front(one)?, class_front(other)?)
}

/// The first character of a key.
fn key_front(start: &Start) -> Option<char> {
    match start.view() {
        StartKind::Key(key, _) => key.as_slice().first().copied(),
        StartKind::Class(_) | StartKind::Word(_, _, _) | StartKind::End => None,
    }
}

/// The class of the characters that begin a start.
fn class_front(start: &Start) -> Option<&Class> {
    match start.view() {
        StartKind::Class(class) | StartKind::Word(class, _, _) => Some(class),
        StartKind::Key(_, _) | StartKind::End => None,
    }
}

/// The least printable character of both classes, else the first character of a range that the other class has too.
fn common_of(one: &Class, other: &Class) -> Option<char> {
    for byte in 33..127u8 {
        let c = char::from(byte);
        if one.has(c) && other.has(c) {
            return Some(c);
        }
    }
    if one.has(' ') && other.has(' ') {
        return Some(' ');
    }
    match begun_in(one, other) {
        Some(c) => Some(c),
        None => begun_in(other, one),
    }
}

/// The first character of a range of `one` that `other` has too.
fn begun_in(one: &Class, other: &Class) -> Option<char> {
    for range in one.ranges() {
        if other.has(range.0) {
            return Some(range.0);
        }
    }
    None
}

/// A character that begins the start and is in the class.
pub(crate) fn common_of_class(start: &Start, class: &Class) -> Option<char> {
    common_of(class_front(start)?, class)
}
