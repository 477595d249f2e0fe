//! The tokens of a file that may have faults.

ghost use Rattle.std.specs.Prelude.{◌≡◌, false, IfOk};
ghost use Rattle.std.specs.List.{list_any};
ghost use Rattle.pg_file_tokens.specs.Lexing.{lex_of, placed_of};
ghost use Rattle.pg_file_tokens.specs.Tokens.{is_bad};
ghost use Rattle.pg_file_tokens.specs.View.{placed_tokens_of, token_of};

use pg_file_tokens::{Lexeme, lex};
use std::alloc::{AllocError, Global};

/// The tokens of a file. No token is bad: behind a character that begins none it goes on with the next character, or with the next line if it is a quote
/// (ours). Fails where memory runs out.
#[tactic(auto, using(crate::proofs::NameLemmas::no_bad))]
pub fn tokens(alloc: Global, text: &[char]) -> Result<Vec<Lexeme>, AllocError>
    ensures { list_any is_bad (lex_of text.now) ≡ false → IfOk result (λ found. placed_tokens_of found.items ≡ placed_of text.now) }
{
    let lexemes = lex(alloc, text)?;
    if has_bad(lexemes.as_slice()) {
        with_rest(alloc, text, lexemes)
    } else {
        Ok(lexemes)
    }
}

fn has_bad(lexemes: &[Lexeme]) -> bool
    ensures { result ≡ list_any (λ l. is_bad (token_of l.token)) lexemes.now }
{
    lexemes.iter().any(|lexeme| lexeme.token.is_bad())
}

/// These tokens, the last of which is bad, and those behind it. Each round takes a bad token out and goes on behind it.
fn with_rest(
    alloc: Global,
    text: &[char],
    lexemes: Vec<Lexeme>,
) -> Result<Vec<Lexeme>, AllocError> {
    let mut found = lexemes;
    for _ in 0..text.len() {
        let Some(from) = behind_bad(text, found.as_slice()) else {
            break;
        };
        let _bad = found.pop();
        append(alloc, &mut found, text, from)?;
    }
    Ok(found)
}

/// The place to go on from, if the last token is bad.
fn behind_bad(text: &[char], lexemes: &[Lexeme]) -> Option<usize> {
    match lexemes {
        [.., last] if last.token.is_bad() => Some(behind(text, last.place)),
        _ => None,
    }
}

/// Behind a character that begins no token, or behind the line of a quote.
fn behind(text: &[char], place: usize) -> usize {
    let rest = text.get(place..).unwrap_or(&[]);
    match rest {
        ['"', ..] => {
            let line = rest.iter().take_while(|c| **c != '\n').count();
            place.saturating_add(line)
        }
        _ => place.saturating_add(1),
    }
}

/// Appends the tokens from a place on, up to the first bad one.
fn append(
    alloc: Global,
    found: &mut Vec<Lexeme>,
    text: &[char],
    from: usize,
) -> Result<(), AllocError> {
    let rest = lex(alloc, text.get(from..).unwrap_or(&[]))?;
    for lexeme in rest {
        found.push(Lexeme {
            token: lexeme.token,
            place: lexeme.place.saturating_add(from),
        })?;
    }
    Ok(())
}
