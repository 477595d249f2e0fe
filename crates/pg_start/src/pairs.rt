//! Whether two starts are apart, one row for each pair of kinds.
//!
//! The starts alone decide, by their classes and the characters of keys. A parser that looks ahead relies on it.
ghost use Rattle.std.specs.Prelude.{◌↔◌, IsTrue};
ghost use Rattle.pg_start.specs.Apart.{Apart, KeysApart, KeyWordApart};

use crate::kind::StartKind;
use crate::prefix::{begins_in, begins_with, word_prefix};
use crate::start::Start;
use pg_class::Class;
use pg_text::Texts;

/// Whether two starts are apart. It takes no memory.
///
/// The order of the two doesn't matter (`apart_is_symmetric`). Two that are apart never match at the same place of a
/// text (`starts_apart_never_meet`). Two that aren't apart need not meet anywhere.
pub fn apart(one: &Start, other: &Start) -> bool
    ensures { IsTrue result ↔ Apart one.now other.now }
{
    match one.view() {
        StartKind::Class(class) => class_is_apart(class, other.view()),
        StartKind::Key(key, excluded) => key_is_apart(key.as_slice(), excluded, other.view()),
        StartKind::Word(heads, rest, reserved) => {
            word_is_apart(heads, rest, reserved, other.view())
        }
        StartKind::End => end_is_apart(other.view()),
    }
}

fn class_is_apart(class: &Class, other: &StartKind) -> bool
    ensures { IsTrue result ↔ Apart (StartKind.Class class.now) other.now }
{
    match other {
        StartKind::Class(other) => class.disjoint(other),
        StartKind::Key(key, _) => !begins_in(key.as_slice(), class),
        StartKind::Word(heads, _, _) => class.disjoint(heads),
        StartKind::End => true,
    }
}

fn key_is_apart(key: &[char], excluded: &Class, other: &StartKind) -> bool
    ensures { IsTrue result ↔ Apart (StartKind.Key key.now excluded.now) other.now }
{
    match other {
        StartKind::Class(class) => !begins_in(key, class),
        StartKind::Key(other, others) => keys_are_apart(key, excluded, other.as_slice(), others),
        StartKind::Word(heads, rest, reserved) => {
            key_and_word_are_apart(key, excluded, heads, rest, reserved)
        }
        StartKind::End => true,
    }
}

fn word_is_apart(heads: &Class, rest: &Class, reserved: &Texts, other: &StartKind) -> bool
    ensures { IsTrue result ↔ Apart (StartKind.Word heads.now rest.now reserved.now) other.now }
{
    match other {
        StartKind::Class(class) => heads.disjoint(class),
        StartKind::Key(key, excluded) => {
            key_and_word_are_apart(key.as_slice(), excluded, heads, rest, reserved)
        }
        StartKind::Word(others, _, _) => heads.disjoint(others),
        StartKind::End => true,
    }
}

fn end_is_apart(other: &StartKind) -> bool
    ensures { IsTrue result ↔ Apart StartKind.End other.now }
{
    match other {
        StartKind::Class(_) | StartKind::Key(_, _) | StartKind::Word(_, _, _) => true,
        StartKind::End => false,
    }
}

/// Whether neither key begins with the other, or the longer goes on with a character that the shorter excludes.
fn keys_are_apart(key: &[char], excluded: &Class, other: &[char], other_excluded: &Class) -> bool
    ensures { IsTrue result ↔ KeysApart key.now excluded.now other.now other_excluded.now }
{
    if begins_with(other, key) {
        begins_in(&other[key.len()..], excluded)
    } else if begins_with(key, other) {
        begins_in(&key[other.len()..], other_excluded)
    } else {
        true
    }
}

/// Whether no word is read where the key stands. Either the key begins with no head; or the word that is read is reserved, since it ends inside the key, or
/// ends with the key and the key excludes all that could continue it.
fn key_and_word_are_apart(
    key: &[char],
    excluded: &Class,
    heads: &Class,
    rest: &Class,
    reserved: &Texts,
) -> bool
    ensures { IsTrue result ↔ KeyWordApart key.now excluded.now heads.now rest.now reserved.now }
{
    if !begins_in(key, heads) {
        return true;
    }
    let word = word_prefix(key, rest);
    reserved.contains(word) && (word != key || rest.within(excluded))
}
