//! The item around a place of a file, found by its semicolons.

use crate::names::rest_of;
use pg_file_tokens::{Lexeme, Mark};

/// The place of an item: its first character, the end of its semicolon, and whether there is a token in it.
#[derive(Clone, Copy)]
pub(crate) struct ItemPlace {
    pub(crate) first: usize,
    pub(crate) after: usize,
    pub(crate) has_token: bool,
}

/// The item around a place in a text with these tokens, or the item that ends before the place if there is no semicolon after it.
pub(crate) fn item_around(text: &[char], lexemes: &[Lexeme], place: usize) -> ItemPlace {
    let first = behind_last_semicolon(lexemes, place);
    let after = behind_next_semicolon(text, lexemes, place);
    let has_token = lexemes
        .iter()
        .any(|one| first <= one.place && one.place < after);
    ItemPlace {
        first,
        after,
        has_token,
    }
}

/// The place after the last semicolon before this one, or the beginning if there is none.
fn behind_last_semicolon(lexemes: &[Lexeme], place: usize) -> usize {
    let mut first = 0;
    for one in lexemes {
        if one.place < place && one.token.is_mark(Mark::Semicolon) {
            first = one.place.saturating_add(1);
        }
    }
    first
}

/// The place after the first semicolon from a place on, or the end if there is none. If the tokens end at a bad one, the semicolon is searched separately.
fn behind_next_semicolon(text: &[char], lexemes: &[Lexeme], place: usize) -> usize {
    for one in lexemes {
        if place <= one.place && one.token.is_mark(Mark::Semicolon) {
            return one.place.saturating_add(1);
        }
    }
    match lexemes.last() {
        Some(last) => behind_bad(text, last.place.max(place)),
        None => behind_bad(text, place),
    }
}

/// The place after the first semicolon from a bad token on, or the end if there is none. A literal that isn't closed ends with its line, and so does the
/// item, if the line ends with a semicolon.
fn behind_bad(text: &[char], place: usize) -> usize {
    if text.get(place).copied() != Some('"') {
        return behind_semicolon(text, place);
    }
    let end = end_of_line(text, place);
    let last = text
        .get(place..end)
        .unwrap_or(&[])
        .iter()
        .rfind(|c| !c.is_whitespace())
        .copied();
    if last == Some(';') {
        end
    } else {
        behind_semicolon(text, end)
    }
}

/// The place after the first `;` from a place on, or the end if there is none.
fn behind_semicolon(text: &[char], place: usize) -> usize {
    let before = rest_of(text, place)
        .iter()
        .take_while(|c| **c != ';')
        .count();
    place
        .saturating_add(before)
        .saturating_add(1)
        .min(text.len())
}

/// The end of the line around a place.
fn end_of_line(text: &[char], place: usize) -> usize {
    let before = rest_of(text, place)
        .iter()
        .take_while(|c| **c != '\n')
        .count();
    place.saturating_add(before)
}
