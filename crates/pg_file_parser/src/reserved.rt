//! The optional ends of an item: reserved texts, and the limit on operators.

#![tactic(auto, using(crate::proofs::ParserLemmas::Rests::ends))]

ghost use Rattle.std.specs.Prelude.{◌≡◌, IfOk};
ghost use Rattle.pg_file_tokens.specs.View.{tokens_of};
ghost use Rattle.pg_file_parser.specs.Rests.{EndsWith};
ghost use Rattle.pg_file_parser.specs.Given.{Gives};
ghost use Rattle.pg_file_parser.specs.ItemReading.{literals_at, reserved_at, most_at};

use crate::error::SyntaxError;
use crate::front::{after_word, has_literal, number};
use crate::text::{filled_at, value_between};
use pg_file_tokens::Lexeme;
use pg_text::Characters;
use std::alloc::Global;

/// The most operators that a file may allow.
const OPERATOR_LIMIT: usize = 64;

/// Consecutive literals, none of them empty.
fn literals(alloc: Global, tokens: &[Lexeme]) -> Result<(Vec<Characters>, &[Lexeme]), SyntaxError>
    ensures read { Gives (λ x. (x.0.items, tokens_of x.1.now)) result (literals_at (tokens_of tokens.now)) }
    ensures rest { IfOk result (λ x. EndsWith tokens.now x.1.now) }
{
    let mut texts = Vec::new(alloc);
    let mut rest = tokens;
    while has_literal(rest) {
        let (text, _place, after) = filled_at(alloc, rest)?;
        texts.push(text)?;
        rest = after;
    }
    Ok((texts, rest))
}

/// The texts after the word `reserved`, if it is at the front: one or more.
pub fn reserved(
    alloc: Global,
    tokens: &[Lexeme],
) -> Result<(Vec<Characters>, &[Lexeme]), SyntaxError>
    ensures read { Gives (λ x. (x.0.items, tokens_of x.1.now)) result (reserved_at (tokens_of tokens.now)) }
    ensures rest { IfOk result (λ x. EndsWith tokens.now x.1.now) }
{
    let Some(after) = after_word(tokens, "reserved") else {
        return Ok((Vec::new(alloc), tokens));
    };
    let (first, _place, rest) = filled_at(alloc, after)?;
    let (mut texts, rest) = literals(alloc, rest)?;
    texts.insert(0, first)?;
    Ok((texts, rest))
}

/// The number after the word `max`, if it is at the front. F3 if it isn't from 1 to 64.
pub fn most(tokens: &[Lexeme]) -> Result<(Option<usize>, &[Lexeme]), SyntaxError>
    ensures read { Gives (λ x. (x.0, tokens_of x.1.now)) result (most_at (tokens_of tokens.now)) }
    ensures rest { IfOk result (λ x. EndsWith tokens.now x.1.now) }
{
    let Some(after) = after_word(tokens, "max") else {
        return Ok((None, tokens));
    };
    let (digits, place, rest) = number(after)?;
    Ok((Some(value_between(1, OPERATOR_LIMIT, digits, place)?), rest))
}
