//! Names that are words of grammar files.

use crate::misspelled::fits;
use crate::names::{Defined, is_there, names_defined};
use crate::shown::{push_line, quoted};
use crate::tokens::Tokens;
use crate::words::form_of;
use pg_file_items::is_reserved;
use pg_file_tokens::Mark;
use std::alloc::{AllocError, Global};

/// Appends that a word stands where a name could, if that is so: at the token that can't stand where it does, or right before it, where the word was read as
/// the beginning of a form or an item. Answers whether it is so.
pub(crate) fn push_taken(
    alloc: Global,
    page: &mut String,
    tokens: &Tokens,
    number: usize,
) -> Result<bool, AllocError> {
    let before = number.saturating_sub(1);
    if let Some(word) = taken(alloc, tokens, before, number)? {
        push_word(alloc, page, tokens, word)?;
        push_form(alloc, page, tokens, before.saturating_add(1), word)?;
        return Ok(true);
    }
    match taken(alloc, tokens, number, number)? {
        Some(word) if !is_form(tokens, number, word) => {
            push_word(alloc, page, tokens, word)?;
            Ok(true)
        }
        Some(_) | None => Ok(false),
    }
}

/// Whether a word with a parenthesis begins a form. It is then meant as a form, like string("x") where a class is needed.
fn is_form(tokens: &Tokens, number: usize, word: &[char]) -> bool {
    form_of(word).is_some() && tokens.is_mark(number.saturating_add(1), Mark::Open)
}

/// The word that is the token `at`, if a name in its place gets the parser past the token `number`, which can't stand where it does.
fn taken<'f>(
    alloc: Global,
    tokens: &Tokens<'f>,
    at: usize,
    number: usize,
) -> Result<Option<&'f [char]>, AllocError> {
    match tokens.name(at) {
        Some(word) if is_reserved(word) && fits(alloc, tokens, at, number, "x")? => Ok(Some(word)),
        Some(_) | None => Ok(None),
    }
}

/// Appends that a word can't be a name, and which name could be used instead.
fn push_word(
    alloc: Global,
    page: &mut String,
    tokens: &Tokens,
    word: &[char],
) -> Result<(), AllocError> {
    let there = names_defined(alloc, tokens)?;
    let free = free_name(alloc, &there, word)?;
    push_free(alloc, page, word, &free)
}

fn push_free(
    alloc: Global,
    page: &mut String,
    word: &[char],
    free: &[char],
) -> Result<(), AllocError> {
    let word = quoted(alloc, word)?;
    let free = quoted(alloc, free)?;
    let words = format!(in alloc;
        "{word} is a word of grammar files, so it can't be a name; {free} can"
    )?;
    push_line(page, words.as_str())
}

/// The word followed by as many `_` as it takes to be a name that the file doesn't define.
fn free_name(alloc: Global, there: &[Defined], word: &[char]) -> Result<Vec<char>, AllocError> {
    let mut name = word.to_vec(alloc)?;
    name.push('_')?;
    for _ in there {
        if is_there(there, &name) {
            name.push('_')?;
        }
    }
    Ok(name)
}

/// Appends how a form is written, if the word begins one and isn't being defined there. `behind` is the number of the token after the word.
fn push_form(
    alloc: Global,
    page: &mut String,
    tokens: &Tokens,
    behind: usize,
    word: &[char],
) -> Result<(), AllocError> {
    match form_of(word) {
        Some(form) if !tokens.is_mark(behind, Mark::Equals) => {
            let words = format!(in alloc; "if you mean the form, write its parentheses: {form}")?;
            push_line(page, words.as_str())
        }
        Some(_) | None => Ok(()),
    }
}
