//! The words for what no case takes.

use pg_grammar_form::{Decl, Role};
use std::alloc::{AllocError, Global};

/// Appends the words for a turn, from its rank and the place of the form that was written for it.
pub(crate) fn push_turn(
    alloc: Global,
    page: &mut String,
    characters: &[char],
    place: usize,
    rank: usize,
) -> Result<(), AllocError> {
    let word = word_at(alloc, characters, place)?;
    let words = match rank {
        0..=2 => rounds(alloc, word.as_str(), rank)?,
        _ => alternative(alloc, word.as_str(), rank.saturating_sub(2))?,
    };
    page.push_str(words.as_str())
}

/// The name that stands at a place.
fn word_at(alloc: Global, characters: &[char], place: usize) -> Result<String, AllocError> {
    let mut word = String::new(alloc);
    for c in characters.get(place..).unwrap_or(&[]) {
        if !c.is_ascii_alphanumeric() && *c != '_' {
            break;
        }
        word.push(*c)?;
    }
    Ok(word)
}

/// So many rounds of a form, which has one more where it stands for a part and then a repetition.
fn rounds(alloc: Global, word: &str, count: usize) -> Result<String, AllocError> {
    let (one, more) = match word {
        "chainl1" | "chainr1" => ("separator", "separators"),
        "sepBy" | "sepBy1" => ("part", "parts"),
        _ => ("round", "rounds"),
    };
    let count = if matches!(word, "many1" | "sepBy" | "sepBy1") {
        count.saturating_add(1)
    } else {
        count
    };
    match (word, count) {
        (_, 0) => format!(in alloc; "no {one} of {word}"),
        (_, 1) => format!(in alloc; "one {one} of {word}"),
        ("many1" | "sepBy" | "sepBy1", 2) => format!(in alloc; "two {more} of {word}"),
        _ => format!(in alloc; "more {more} of {word}"),
    }
}

/// An alternative of a form.
fn alternative(alloc: Global, word: &str, number: usize) -> Result<String, AllocError> {
    match (word, number) {
        ("option", 1) => format!(in alloc; "option with its part"),
        ("option", _) => format!(in alloc; "option without its part"),
        ("sepBy", 1) => format!(in alloc; "sepBy with parts"),
        ("sepBy", _) => format!(in alloc; "sepBy without parts"),
        _ => format!(in alloc; "alternative {number} of {word}"),
    }
}

/// Appends an operator of the initial table, as the file has it.
pub(crate) fn push_operator(
    alloc: Global,
    page: &mut String,
    initial: &Decl,
) -> Result<(), AllocError> {
    let role = match initial.role() {
        Role::InfixLeft => "infixl",
        Role::InfixRight => "infixr",
        Role::InfixNone => "infix",
        Role::Prefix => "prefix",
        Role::Postfix => "postfix",
    };
    let precedence = initial.precedence();
    let front = format!(in alloc; "{role} {precedence} \"")?;
    page.push_str(front.as_str())?;
    for c in initial.symbol() {
        page.push(*c)?;
    }
    page.push_str("\"")
}
