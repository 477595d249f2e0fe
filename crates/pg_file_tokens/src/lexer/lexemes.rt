//! Cutting the characters of a grammar file into tokens.
//!
//! White space and comments are skipped, and each token is as long as possible. The list ends with the file, or with
//! the first `Bad` token: nothing after that one is read. The parser relies on the places to say where a fault is.
ghost use Rattle.std.specs.Prelude.{◌≡◌, ◌<◌, ◌≤◌, length, All, AllPairs, IfOk};
ghost use Rattle.pg_file_tokens.specs.Lexical.{SpelledIfGood, OnlySpelled};
ghost use Rattle.pg_file_tokens.specs.Lexing.{lex_of, placed_of, up_to, prefix_at, mark_at};
ghost use Rattle.pg_file_tokens.specs.Lexing as lexing;
ghost use Rattle.pg_file_tokens.specs.View.{prefix_of, tokens_of, placed_tokens_of, StandsIn};

use super::blank::{is_blank, skip_line};
use super::literal::literal;
use super::mark::mark;
use super::word::{name, number};
use crate::token::{Lexeme, Prefix, Token};
use std::alloc::{AllocError, Global};

fn mark_prefix(characters: &[char]) -> Prefix<'_>
    ensures { prefix_of result ≡ lexing.mark_prefix (mark_at characters.now) }
{
    match mark(characters) {
        Some((mark, rest)) => Prefix::Token(Token::Mark(mark), rest),
        None => Prefix::Bad,
    }
}

fn prefix(alloc: Global, characters: &[char]) -> Result<Prefix<'_>, AllocError>
    ensures { IfOk result (λ found. prefix_of found ≡ prefix_at characters.now) }
{
    match characters {
        [] => Ok(Prefix::End),
        ['#', after @ ..] => Ok(Prefix::Blank(skip_line(after))),
        ['"', after @ ..] => literal(alloc, after),
        [first, after @ ..] => {
            if is_blank(*first) {
                Ok(Prefix::Blank(after))
            } else if first.is_ascii_alphabetic() {
                name(alloc, characters)
            } else if first.is_ascii_digit() {
                number(alloc, characters)
            } else {
                Ok(mark_prefix(characters))
            }
        }
    }
}

/// The tokens of a grammar file, up to and including the first that is `Bad` (ours).
///
/// The only error is running out of memory; a fault of the file is a token.
#[tactic(auto, using(crate::proofs::LexerLemmas::Exact::up_to_all))]
pub fn lex(alloc: Global, characters: &[char]) -> Result<Vec<Lexeme>, AllocError>
    ensures tokens { IfOk result (λ found. tokens_of found.items ≡ lex_of characters.now) }
    ensures places { IfOk result (λ found. placed_tokens_of found.items ≡ placed_of characters.now) }
    ensures spelled { IfOk result (λ found. SpelledIfGood characters.now (tokens_of found.items)) }
    ensures only { IfOk result (λ found. OnlySpelled characters.now (tokens_of found.items)) }
    ensures placed { IfOk result (λ found. All (StandsIn characters.now) found.items) }
    ensures within { IfOk result (λ found. All (λ l. l.place < length characters.now) found.items) }
    ensures ascending { IfOk result (λ found. AllPairs (λ l m. l.place < m.place) found.items) }
{
    let lexemes = lex_up_to(alloc, characters, characters.len())?;
    Ok(lexemes)
}

/// As `lex`, but no further than the first token that starts after a place. These tokens alone show what is wrong with
/// the file up to there.
pub fn lex_up_to(alloc: Global, characters: &[char], last: usize) -> Result<Vec<Lexeme>, AllocError>
    ensures exact { IfOk result (λ found. placed_tokens_of found.items ≡ up_to last (placed_of characters.now)) }
    ensures tokens { length characters.now ≤ last → IfOk result (λ found. tokens_of found.items ≡ lex_of characters.now) }
    ensures spelled { length characters.now ≤ last → IfOk result (λ found. SpelledIfGood characters.now (tokens_of found.items)) }
    ensures only { length characters.now ≤ last → IfOk result (λ found. OnlySpelled characters.now (tokens_of found.items)) }
    ensures placed { length characters.now ≤ last → IfOk result (λ found. All (StandsIn characters.now) found.items) }
    ensures within { length characters.now ≤ last → IfOk result (λ found. All (λ l. l.place < length characters.now) found.items) }
    ensures ascending { length characters.now ≤ last → IfOk result (λ found. AllPairs (λ l m. l.place < m.place) found.items) }
{
    let mut lexemes = Vec::new(alloc);
    let mut rest = characters;
    loop {
        let place = characters.len() - rest.len();
        match prefix(alloc, rest)? {
            Prefix::End => return Ok(lexemes),
            Prefix::Blank(after) => rest = after,
            Prefix::Token(token, after) => {
                lexemes.push(Lexeme { token, place })?;
                if place > last {
                    return Ok(lexemes);
                }
                rest = after;
            }
            Prefix::Bad => {
                lexemes.push(Lexeme {
                    token: Token::Bad,
                    place,
                })?;
                return Ok(lexemes);
            }
        }
    }
}
