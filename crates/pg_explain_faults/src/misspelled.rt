//! Words of grammar files that are misspelled.

use crate::expected::can_stand;
use crate::names::{is_there, names_defined};
use crate::nearest::near;
use crate::shown::{push_line, quoted};
use crate::tokens::Tokens;
use crate::words::words;
use pg_file_items::is_reserved;
use pg_text::characters_of;
use std::alloc::{AllocError, Global};

/// Appends which word is misspelled, if one is: at the token that can't stand where it does, or right before it, where it was read as a name. A name that the
/// file defines isn't taken for a misspelled word. Answers whether a word is misspelled.
pub(crate) fn push_misspelled(
    alloc: Global,
    page: &mut String,
    tokens: &Tokens,
    number: usize,
) -> Result<bool, AllocError> {
    if push_misspelled_at(alloc, page, tokens, number, number)? {
        return Ok(true);
    }
    push_misspelled_at(alloc, page, tokens, number.saturating_sub(1), number)
}

/// As `push_misspelled`, for the token with one number, where the token with the other number can't stand.
fn push_misspelled_at(
    alloc: Global,
    page: &mut String,
    tokens: &Tokens,
    at: usize,
    number: usize,
) -> Result<bool, AllocError> {
    match tokens.name(at) {
        Some(name) if !is_reserved(name) => push_nearest_word(
            alloc, page, tokens, at, number, name,
        ),
        Some(_) | None => Ok(false),
    }
}

/// As `push_misspelled_at`, for the name there.
fn push_nearest_word(
    alloc: Global,
    page: &mut String,
    tokens: &Tokens,
    at: usize,
    number: usize,
    name: &[char],
) -> Result<bool, AllocError> {
    if is_defined(alloc, tokens, name)? {
        return Ok(false);
    }
    match nearest_word(alloc, tokens, at, number, name)? {
        Some(word) => {
            push_no_word(alloc, page, name, word)?;
            Ok(true)
        }
        None => Ok(false),
    }
}

fn is_defined(alloc: Global, tokens: &Tokens, name: &[char]) -> Result<bool, AllocError> {
    let there = names_defined(alloc, tokens)?;
    Ok(is_there(&there, name))
}

/// Appends that a name isn't a word, and which word may be meant.
fn push_no_word(
    alloc: Global,
    page: &mut String,
    name: &[char],
    word: &str,
) -> Result<(), AllocError> {
    let shown = quoted(alloc, name)?;
    let words = format!(in alloc; "{shown} isn't a word of grammar files")?;
    push_line(page, words.as_str())?;
    let meant = format!(in alloc; "did you mean `{word}`?")?;
    push_line(page, meant.as_str())
}

/// The nearest word to a name, among those that are near and with which the parser gets past the token that can't stand where it does.
fn nearest_word(
    alloc: Global,
    tokens: &Tokens,
    at: usize,
    number: usize,
    name: &[char],
) -> Result<Option<&'static str>, AllocError> {
    let mut least = usize::MAX;
    let mut found = None;
    for word in words() {
        let distance = distance_of(alloc, name, word)?;
        if distance < least && fits(alloc, tokens, at, number, word)? {
            least = distance;
            found = Some(*word);
        }
    }
    Ok(found)
}

fn distance_of(alloc: Global, name: &[char], word: &str) -> Result<usize, AllocError> {
    let spelled = characters_of(alloc, word)?;
    near(alloc, name, &spelled)
}

/// Whether the parser gets past the token `number` once `written` replaces the token `at`, which is the same one or stands before it. At the end of the file
/// there is nothing to get past.
pub(crate) fn fits(
    alloc: Global,
    tokens: &Tokens,
    at: usize,
    number: usize,
    written: &str,
) -> Result<bool, AllocError> {
    if number >= tokens.lexemes.len() {
        return Ok(false);
    }
    let behind = if at < number {
        tokens.written(number)
    } else {
        &[]
    };
    can_stand(alloc, tokens.text, tokens.place(at), written, behind)
}
