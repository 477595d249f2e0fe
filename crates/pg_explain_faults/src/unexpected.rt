//! Tokens that can't stand where they do.

use crate::characters::NAME;
use crate::context::{Wanted, wanted_at};
use crate::expected::expected;
use crate::misspelled::push_misspelled;
use crate::parsec::in_place_of;
use crate::shown::{push_line, quoted, shown};
use crate::taken::push_taken;
use crate::tokens::Tokens;
use crate::words::form_of;
use pg_file_tokens::{Mark, Token};
use std::alloc::{AllocError, Global};

/// Appends what is meant by a token that can't stand where it does: a name that is a word, a misspelled word, or else what can't stand there, what could, and
/// what is usually meant.
pub(crate) fn push_unexpected(
    alloc: Global,
    page: &mut String,
    tokens: &Tokens,
    number: usize,
) -> Result<(), AllocError> {
    if push_taken(alloc, page, tokens, number)? {
        return Ok(());
    }
    if !is_parsecs(tokens, number) && push_misspelled(alloc, page, tokens, number)? {
        return Ok(());
    }
    push_refused(alloc, page, tokens, number)
}

/// Whether a token is a parenthesis that can't stand there because the name before it is a combinator of Parsec's that grammar files don't have.
fn is_parsecs(tokens: &Tokens, number: usize) -> bool {
    match called(tokens, number) {
        Some(name) => in_place_of(name).is_some(),
        None => false,
    }
}

/// Appends what can't stand at a token, what could, and what is usually meant.
fn push_refused(
    alloc: Global,
    page: &mut String,
    tokens: &Tokens,
    number: usize,
) -> Result<(), AllocError> {
    let could = could_stand(alloc, tokens, number)?;
    push_found(alloc, page, tokens, tokens.place(number), could.as_str())?;
    if is_number_in_name(tokens, number) {
        push_line(page, NAME)
    } else if could.as_str() == "`(`" {
        push_parentheses(alloc, page, tokens, number)
    } else if could.starts_with("a name") {
        Ok(())
    } else {
        push_advice(alloc, page, tokens, number)
    }
}

/// Whether a token is a number with a letter right after it, as in a name that begins with a digit.
fn is_number_in_name(tokens: &Tokens, number: usize) -> bool {
    match tokens.token(number) {
        Some(Token::Number(digits)) => { tokens.written(number).len() > digits.len() }
        Some(Token::Name(_) | Token::Literal(_) | Token::Mark(_) | Token::WrongLiteral | Token::Bad)
        | None => false,
    }
}

/// Appends how the form is written, where its word isn't followed by a parenthesis.
fn push_parentheses(
    alloc: Global,
    page: &mut String,
    tokens: &Tokens,
    number: usize,
) -> Result<(), AllocError> {
    match tokens.name(number.saturating_sub(1)) {
        Some(word) => push_form(alloc, page, word),
        None => Ok(()),
    }
}

fn push_form(alloc: Global, page: &mut String, word: &[char]) -> Result<(), AllocError> {
    match form_of(word) {
        Some(form) => {
            let shown = quoted(alloc, word)?;
            let words = format!(in alloc; "{shown} is written with parentheses: {form}")?;
            push_line(page, words.as_str())
        }
        None => Ok(()),
    }
}

/// What could stand instead of a token, in words.
fn could_stand(alloc: Global, tokens: &Tokens, number: usize) -> Result<String, AllocError> {
    if wanted_at(tokens, number) == Wanted::Builder && begins_part(tokens, number) {
        String::from_str(alloc, "the name of a builder")
    } else {
        expected(alloc, tokens.text, tokens.place(number))
    }
}

/// Appends what can't stand at a place, and what could.
fn push_found(
    alloc: Global,
    page: &mut String,
    tokens: &Tokens,
    place: usize,
    could: &str,
) -> Result<(), AllocError> {
    let here = shown(alloc, tokens, place)?;
    let is_end = place >= tokens.text.len();
    let words = found_words(alloc, here.as_str(), could, is_end)?;
    push_line(page, words.as_str())
}

/// What can't stand there, or that the file ends there, and what could stand there.
fn found_words(alloc: Global, here: &str, could: &str, is_end: bool) -> Result<String, AllocError> {
    if could.is_empty() {
        format!(in alloc; "unexpected {here}")
    } else if is_end {
        format!(in alloc; "the file ends here; expected {could}")
    } else {
        format!(in alloc; "unexpected {here}; expected {could}")
    }
}

/// Appends what is usually meant.
fn push_advice(
    alloc: Global,
    page: &mut String,
    tokens: &Tokens,
    number: usize,
) -> Result<(), AllocError> {
    if let Some(name) = called(tokens, number) {
        return push_no_form(alloc, page, name);
    }
    match advice(tokens, number) {
        Some(words) => push_line(page, words),
        None => Ok(()),
    }
}

/// The name before a parenthesis that can't stand there.
fn called<'f>(tokens: &Tokens<'f>, number: usize) -> Option<&'f [char]> {
    if tokens.is_mark(number, Mark::Open) && number > 0 {
        tokens.name(number.saturating_sub(1))
    } else {
        None
    }
}

/// Appends that a name is no form, and what to write instead.
fn push_no_form(alloc: Global, page: &mut String, name: &[char]) -> Result<(), AllocError> {
    let shown = quoted(alloc, name)?;
    let words = no_form_words(alloc, name, shown.as_str())?;
    push_line(page, words.as_str())
}

/// Says that a name is no form, and what to write instead.
fn no_form_words(alloc: Global, name: &[char], shown: &str) -> Result<String, AllocError> {
    match in_place_of(name) {
        Some(instead) => format!(in alloc; "there is no {shown} in grammar files; {instead}"),
        None => format!(in alloc; "{shown} can't have parentheses: it isn't a form"),
    }
}

/// What is usually meant by a token that can't stand there.
fn advice(tokens: &Tokens, number: usize) -> Option<&'static str> {
    if begins_line(tokens, number) && !tokens.is_mark(number, Mark::Semicolon) && number > 0 {
        return Some("if a new item begins here, the `;` of the item above is missing");
    }
    let wanted = wanted_at(tokens, number);
    match tokens.token(number) {
        Some(Token::Literal(_)) if wanted == Wanted::Value => Some(
            "a literal isn't a value: write string(\"x\"), or satisfy(\"xyz\") for one of its characters",
        ),
        Some(Token::Literal(_)) if wanted == Wanted::Builder => Some(
            "the builder comes first, then, in `build` and chains, its symbol: build(node, \"x\", v)",
        ),
        Some(Token::Mark(Mark::Bar)) => Some(
            "write choice(v, w) for alternatives of values; `|` is for classes",
        ),
        Some(Token::Mark(Mark::Semicolon)) => Some(
            "a parenthesis isn't closed, or something is missing before the `;`",
        ),
        Some(Token::Name(_)) if wanted == Wanted::Value || wanted == Wanted::Builder => {
            Some("a comma may be missing before it")
        }
        Some(Token::Name(_)) if wanted == Wanted::Class => Some(
            "a class is needed here, such as digit, \"xyz\" or \"a\"..\"z\", not a value",
        ),
        Some(Token::Number(_)) => Some(
            "an operator's precedence is from 0 to 9, and `max` is from 1 to 64",
        ),
        Some(Token::Name(_) | Token::Literal(_) | Token::Mark(_) | Token::WrongLiteral | Token::Bad)
        | None => None,
    }
}

/// Whether a token is the first after an opening parenthesis or a comma.
fn begins_part(tokens: &Tokens, number: usize) -> bool {
    let before = number.saturating_sub(1);
    tokens.is_mark(before, Mark::Open) || tokens.is_mark(before, Mark::Comma)
}

/// Whether nothing but blanks stands before a token on its line.
fn begins_line(tokens: &Tokens, number: usize) -> bool {
    for back in (0..tokens.place(number)).rev() {
        match tokens.text.get(back) {
            Some('\n') => return true,
            Some(' ' | '\t' | '\r') => {}
            Some(_) | None => return false,
        }
    }
    true
}
