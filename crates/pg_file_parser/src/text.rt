//! The texts and numbers that a file's items keep: names, the texts of literals, and the values of digits.
//!
//! A text is checked where its use is known, and then copied. A fault is reported at the text itself.

#![tactic(auto, using(crate::proofs::ParserLemmas::Rests::ends))]

ghost use Rattle.std.specs.Prelude.{◌≡◌, ◌≤◌, IfOk};
ghost use Rattle.pg_file_tokens.specs.View.{tokens_of};
ghost use Rattle.pg_file_parser.specs.Rests.{EndsWith};
ghost use Rattle.pg_file_parser.specs.Given.{Gives};
ghost use Rattle.pg_file_parser.specs.Reading as reading;
ghost use Rattle.pg_file_parser.specs.ItemReading as item_reading;

use crate::error::{SyntaxError, SyntaxFault};
use crate::front::{literal, name};
use pg_file_items::is_reserved;
use pg_file_tokens::Lexeme;
use pg_grammar_form::{LITERAL_LIMIT, NAME_LIMIT};
use pg_text::Characters;
use std::alloc::{AllocError, Global};

fn copied(alloc: Global, text: &[char]) -> Result<Characters, AllocError>
    ensures { IfOk result (λ copy. copy ≡ text.now) }
{
    Ok(Characters::new(text.to_vec(alloc)?))
}

/// A name that may be a reserved word. F8 if it has over 64 characters.
pub fn short_name(alloc: Global, name: &[char], place: usize) -> Result<Characters, SyntaxError>
    ensures { Gives (λ copy. copy) result (reading.short_name name.now) }
{
    if name.len() > NAME_LIMIT {
        return Err(SyntaxError::Fault(SyntaxFault::LimitPassed, Some(place)));
    }
    Ok(copied(alloc, name)?)
}

/// The name of a rule, a class or a word. F3 if it is a reserved word, F8 if it has over 64 characters.
#[tactic(auto, using(crate::proofs::ParserLemmas::Rests::ends), unfolding(crate::specs::Reading::free_name))]
pub fn free_name(alloc: Global, name: &[char], place: usize) -> Result<Characters, SyntaxError>
    ensures { Gives (λ copy. copy) result (reading.free_name name.now) }
{
    if is_reserved(name) {
        return Err(SyntaxError::Fault(SyntaxFault::UnexpectedToken, Some(place)));
    }
    short_name(alloc, name, place)
}

/// The text of any literal. F8 if it has over 1,024 characters.
pub fn literal_text(alloc: Global, text: &[char], place: usize) -> Result<Characters, SyntaxError>
    ensures { Gives (λ copy. copy) result (reading.literal_text text.now) }
{
    if text.len() > LITERAL_LIMIT {
        return Err(SyntaxError::Fault(SyntaxFault::LimitPassed, Some(place)));
    }
    Ok(copied(alloc, text)?)
}

/// The text of a literal that mustn't be empty. F7 if it is, F8 if it has over 1,024 characters.
#[tactic(auto, using(crate::proofs::ParserLemmas::Rests::ends), unfolding(crate::specs::Reading::filled_text))]
pub fn filled_text(alloc: Global, text: &[char], place: usize) -> Result<Characters, SyntaxError>
    ensures { Gives (λ copy. copy) result (reading.filled_text text.now) }
{
    if text.is_empty() {
        return Err(SyntaxError::Fault(SyntaxFault::BadLiteral, Some(place)));
    }
    literal_text(alloc, text, place)
}

/// The name at the front, which an item defines or uses, its place, and the tokens after it.
pub fn free_name_at(
    alloc: Global,
    tokens: &[Lexeme],
) -> Result<(Characters, usize, &[Lexeme]), SyntaxError>
    ensures read { Gives (λ x. (x.0, tokens_of x.2.now)) result (item_reading.free_name_at (tokens_of tokens.now)) }
    ensures rest { IfOk result (λ x. EndsWith tokens.now x.2.now) }
{
    let (text, place, rest) = name(tokens)?;
    Ok((free_name(alloc, text, place)?, place, rest))
}

/// The text of the literal at the front, which mustn't be empty, its place, and the tokens after it.
pub fn filled_at(
    alloc: Global,
    tokens: &[Lexeme],
) -> Result<(Characters, usize, &[Lexeme]), SyntaxError>
    ensures read { Gives (λ x. (x.0, tokens_of x.2.now)) result (item_reading.filled_at (tokens_of tokens.now)) }
    ensures rest { IfOk result (λ x. EndsWith tokens.now x.2.now) }
{
    let (text, place, rest) = literal(tokens)?;
    Ok((filled_text(alloc, text, place)?, place, rest))
}

/// The number that the digits write, if it is at most `most`.
#[tactic(auto, using(crate::proofs::ParserLemmas::Rests::ends), unfolding(crate::specs::Reading::value_within))]
fn number_within(most: usize, digits: &[char]) -> Option<usize>
    requires { most ≤ 64 }
    ensures { result ≡ reading.value_within most digits.now }
{
    let mut value: usize = 0;
    for digit in digits {
        value = value * 10 + digit.to_digit(10)? as usize;
        if value > most {
            return None;
        }
    }
    Some(value)
}

/// As `number_within`, for digits at a place. F3 there if the number is greater, however many digits it has.
pub fn value_within(most: usize, digits: &[char], place: usize) -> Result<usize, SyntaxError>
    requires { most ≤ 64 }
    ensures { Gives (λ n. n) result (reading.value_within most digits.now) }
{
    match number_within(most, digits) {
        Some(value) => Ok(value),
        None => Err(SyntaxError::Fault(SyntaxFault::UnexpectedToken, Some(place))),
    }
}

/// The number that the digits at a place write. F3 there if it is out of bounds.
pub fn value_between(
    least: usize,
    most: usize,
    digits: &[char],
    place: usize,
) -> Result<usize, SyntaxError>
    requires { most ≤ 64 }
    ensures { Gives (λ n. n) result (reading.value_between least most digits.now) }
{
    let value = value_within(most, digits, place)?;
    if value < least {
        return Err(SyntaxError::Fault(SyntaxFault::UnexpectedToken, Some(place)));
    }
    Ok(value)
}
