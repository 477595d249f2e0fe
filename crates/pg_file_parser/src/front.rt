//! The tokens at the front: marks, words, names, numbers and literals, or the fault if another token is there.
//!
//! A token that can't stand at its place is the fault there, and so is the end of the file. Names, numbers and literals
//! are returned as borrowed text, to be checked by the functions that use them.

#![tactic(auto, using(crate::proofs::ParserLemmas::Rests::ends))]

ghost use Rattle.std.specs.Prelude.{◌≡◌, IfOk, Some, IfSome};
ghost use Rattle.pg_file_tokens.specs.View.{tokens_of};
ghost use Rattle.pg_file_tokens.specs.declared.token.Mark.TheVariants.{Close};
ghost use Rattle.pg_file_parser.specs.Rests.{EndsWith};
ghost use Rattle.pg_file_parser.specs.Given.{Gives, IsFault, after_mark_at, after_of, place_at};
ghost use Rattle.pg_file_parser.specs.Reading as reading;

use crate::error::{SyntaxError, SyntaxFault};
use pg_file_tokens::{Lexeme, Mark, Token};

/// The fault at the front, if no possible token is there.
pub fn unexpected(tokens: &[Lexeme]) -> SyntaxError
    ensures { IsFault result }
{
    match tokens {
        [first, ..] => SyntaxError::Fault(SyntaxFault::UnexpectedToken, Some(first.place)),
        [] => SyntaxError::Fault(SyntaxFault::UnexpectedToken, None),
    }
}

/// The tokens after the mark, if it is at the front.
pub fn after_mark(tokens: &[Lexeme], which: Mark) -> Option<&[Lexeme]>
    ensures read { after_of result ≡ reading.mark_at which (tokens_of tokens.now) }
    ensures rest { IfSome result (λ rest. EndsWith tokens.now rest.now) }
{
    match tokens {
        [first, rest @ ..] if first.token.is_mark(which) => Some(rest),
        _ => None,
    }
}

/// The tokens after the mark, which must be at the front.
pub fn expect_mark(tokens: &[Lexeme], which: Mark) -> Result<&[Lexeme], SyntaxError>
    ensures read { Gives (λ rest. tokens_of rest.now) result (reading.mark_at which (tokens_of tokens.now)) }
    ensures rest { IfOk result (λ rest. EndsWith tokens.now rest.now) }
{
    match after_mark(tokens, which) {
        Some(rest) => Ok(rest),
        None => Err(unexpected(tokens)),
    }
}

/// The place after the closing parenthesis, which must be at the front, and the tokens after it.
pub fn expect_close(tokens: &[Lexeme]) -> Result<(usize, &[Lexeme]), SyntaxError>
    ensures read { Gives (λ x. tokens_of x.1.now) result (reading.mark_at Close (tokens_of tokens.now)) }
    ensures after { IfOk result (λ x. x.0 ≡ after_mark_at tokens.now) }
    ensures rest { IfOk result (λ x. EndsWith tokens.now x.1.now) }
{
    match tokens {
        [first, rest @ ..] if first.token.is_mark(Mark::Close) => {
            Ok((first.place.saturating_add(1), rest))
        }
        _ => Err(unexpected(tokens)),
    }
}

/// The tokens after the word, which is ASCII, if it is at the front.
pub fn after_word<'a>(tokens: &'a [Lexeme], word: &str) -> Option<&'a [Lexeme]>
    ensures read { after_of result ≡ reading.word_at word.now (tokens_of tokens.now) }
    ensures rest { IfSome result (λ rest. EndsWith tokens.now rest.now) }
{
    match tokens {
        [first, rest @ ..] if first.token.is_word(word) => Some(rest),
        _ => None,
    }
}

/// The tokens after the word, which is ASCII and must be at the front.
pub fn expect_word<'a>(tokens: &'a [Lexeme], word: &str) -> Result<&'a [Lexeme], SyntaxError>
    ensures read { Gives (λ rest. tokens_of rest.now) result (reading.word_at word.now (tokens_of tokens.now)) }
    ensures rest { IfOk result (λ rest. EndsWith tokens.now rest.now) }
{
    match after_word(tokens, word) {
        Some(rest) => Ok(rest),
        None => Err(unexpected(tokens)),
    }
}

/// A name and its place, and the tokens after it.
pub fn name(tokens: &[Lexeme]) -> Result<(&[char], usize, &[Lexeme]), SyntaxError>
    ensures read { Gives (λ x. (x.0.now, tokens_of x.2.now)) result (reading.name_at (tokens_of tokens.now)) }
    ensures place { IfOk result (λ x. Some x.1 ≡ place_at tokens.now) }
    ensures rest { IfOk result (λ x. EndsWith tokens.now x.2.now) }
{
    if let [first, rest @ ..] = tokens
        && let Token::Name(text) = &first.token
    {
        return Ok((text.as_slice(), first.place, rest));
    }
    Err(unexpected(tokens))
}

/// A number's digits and their place, and the tokens after it.
pub fn number(tokens: &[Lexeme]) -> Result<(&[char], usize, &[Lexeme]), SyntaxError>
    ensures read { Gives (λ x. (x.0.now, tokens_of x.2.now)) result (reading.number_at (tokens_of tokens.now)) }
    ensures rest { IfOk result (λ x. EndsWith tokens.now x.2.now) }
{
    if let [first, rest @ ..] = tokens
        && let Token::Number(digits) = &first.token
    {
        return Ok((digits.as_slice(), first.place, rest));
    }
    Err(unexpected(tokens))
}

/// Whether a literal is at the front, even a wrong one.
pub fn has_literal(tokens: &[Lexeme]) -> bool
    ensures { result ≡ reading.has_literal (tokens_of tokens.now) }
{
    match tokens {
        [first, ..] => matches!(first.token, Token::Literal(_) | Token::WrongLiteral),
        [] => false,
    }
}

/// A literal and its place, and the tokens after it. F7 if an escape in it is invalid.
pub fn literal(tokens: &[Lexeme]) -> Result<(&[char], usize, &[Lexeme]), SyntaxError>
    ensures read { Gives (λ x. (x.0.now, tokens_of x.2.now)) result (reading.literal_at (tokens_of tokens.now)) }
    ensures rest { IfOk result (λ x. EndsWith tokens.now x.2.now) }
{
    match tokens {
        [first, rest @ ..] => match &first.token {
            Token::Literal(text) => Ok((text.as_slice(), first.place, rest)),
            Token::WrongLiteral => Err(SyntaxError::Fault(
                SyntaxFault::BadLiteral,
                Some(first.place),
            )),
            Token::Name(_) | Token::Number(_) | Token::Mark(_) | Token::Bad => Err(unexpected(
                tokens,
            )),
        },
        [] => Err(unexpected(tokens)),
    }
}
