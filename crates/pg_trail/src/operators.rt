//! Tokens to the operators of an item: an array of arrays of two texts.

ghost use Rattle.std.specs.Prelude.{◌≡◌, ◌∷◌, ℕ, List, Some, None, map, option_map, MatchOption, IfOk};
ghost use Rattle.std.specs.Bool.{MatchBool};
ghost use Rattle.json.specs.Reads.{token_of};
ghost use Rattle.json.specs.Token.{begin_array, string as string_token};
ghost use Rattle.serde_json.specs.Data.{string};
ghost use Rattle.serde_json.specs.View.{items_of};
ghost use Rattle.std.specs.Str.{encode_utf8_all};
ghost use Rattle.pg_grammar_value.specs.declared.trail.Fixity.{Fixity as SpecFixity};
ghost use Rattle.pg_trail.specs.Ahead.{after, data_at, items_at};
ghost use Rattle.pg_trail.specs.Readings.{Finds, IsOnly, Reads, Skips, pair_of, seen};
ghost use Rattle.pg_trail.specs.TrailJson.{role, two_texts, two_items, operator_value, operators_value};

use crate::skip::{skip_items, skip_rest};
use crate::trail_fault::TrailFault;
use json::{Reader, Token};
use pg_grammar_value::{AppliedOperator, AppliedOperators, Fixity};
use pg_text::{Characters, characters_of};
use std::alloc::{AllocError, Global};

/// The operators at the front; none if another value stands there.
#[tactic(auto, using(crate::proofs::Ahead::no_token))]
pub(crate) fn read_operators(
    alloc: Global,
    reader: &mut Reader<'_>,
) -> Result<Option<AppliedOperators>, TrailFault>
    ensures { Reads operators_value (data_at 125 reader.old) reader.new result }
{
    match reader.next() {
        Some(token) => operators_from(alloc, reader, token),
        None => Err(TrailFault::NotATrail),
    }
}

/// As `read_operators`, where this token has been read.
fn operators_from(
    alloc: Global,
    reader: &mut Reader<'_>,
    token: Token<'_>,
) -> Result<Option<AppliedOperators>, TrailFault>
    ensures { Reads operators_value (data_at 125 (token_of token.entry ∷ reader.old)) reader.new result }
{
    if opens_array(token) {
        return read_each_operator(alloc, reader);
    }
    skip_rest(reader, token, 125)?;
    Ok(None)
}

/// The operators up to the end of the array.
fn read_each_operator(
    alloc: Global,
    reader: &mut Reader<'_>,
) -> Result<Option<AppliedOperators>, TrailFault>
    ensures { Reads (λ operators. items_of (map operator_value operators)) (items_at 124 reader.old) reader.new result }
{
    let mut operators = AppliedOperators::new(alloc, Vec::new(alloc))?;
    'operators: while !reader.take_end_array() {
        match read_operator(alloc, reader)? {
            Some(operator) => operators.push(operator)?,
            None => return none_of_items(reader),
        }
    }
    Ok(Some(operators))
}

/// Skips the values up to the end of the array, which isn't an array of operators.
fn none_of_items(reader: &mut Reader<'_>) -> Result<Option<AppliedOperators>, TrailFault>
    ensures passed { Skips (after (items_at 124 reader.old)) reader.new result }
    ensures none { IfOk result (λ found. found ≡ None) }
{
    skip_items(reader, 124)?;
    Ok(None)
}

/// The operator at the front; none if another value stands there.
#[tactic(auto, using(crate::proofs::Ahead::no_token))]
fn read_operator(
    alloc: Global,
    reader: &mut Reader<'_>,
) -> Result<Option<AppliedOperator>, TrailFault>
    ensures { Reads operator_value (data_at 124 reader.old) reader.new result }
{
    match reader.next() {
        Some(token) => operator_from(alloc, reader, token),
        None => Err(TrailFault::NotATrail),
    }
}

/// As `read_operator`, where this token has been read.
fn operator_from(
    alloc: Global,
    reader: &mut Reader<'_>,
    token: Token<'_>,
) -> Result<Option<AppliedOperator>, TrailFault>
    ensures { Reads operator_value (data_at 124 (token_of token.entry ∷ reader.old)) reader.new result }
{
    if opens_array(token) {
        return read_parts(alloc, reader);
    }
    skip_rest(reader, token, 124)?;
    Ok(None)
}

/// The operator whose role and symbol stand here, up to the end of the array.
fn read_parts(alloc: Global, reader: &mut Reader<'_>) -> Result<Option<AppliedOperator>, TrailFault>
    ensures { Reads operator_value (data_at 124 (begin_array ∷ reader.old)) reader.new result }
{
    match both_texts(reader)? {
        Some((role, symbol)) => operator_of(alloc, role, symbol),
        None => Ok(None),
    }
}

/// The two texts up to the end of the array.
fn both_texts<'a>(reader: &mut Reader<'a>) -> Result<Option<(&'a str, &'a str)>, TrailFault>
    ensures { Reads two_items (items_at 123 reader.old) reader.new (seen (λ texts. (texts.0.now, texts.1.now)) result) }
{
    if reader.take_end_array() {
        return Ok(None);
    }
    let first = read_text(reader)?;
    if reader.take_end_array() {
        return Ok(None);
    }
    let second = read_text(reader)?;
    if !reader.take_end_array() {
        skip_items(reader, 123)?;
        return Ok(None);
    }
    Ok(both(first, second))
}

/// Both texts, if there are two.
fn both<'a>(first: Option<&'a str>, second: Option<&'a str>) -> Option<(&'a str, &'a str)>
    ensures { option_map (λ texts. (texts.0.now, texts.1.now)) result
        ≡ pair_of (option_map (λ text. text.now) first.entry) (option_map (λ text. text.now) second.entry) }
{
    Some((first?, second?))
}

/// The text at the front; none if another value stands there.
#[tactic(auto, using(crate::proofs::Ahead::no_token))]
fn read_text<'a>(reader: &mut Reader<'a>) -> Result<Option<&'a str>, TrailFault>
    ensures { Reads string (data_at 123 reader.old) reader.new (seen (λ text. text.now) result) }
{
    match reader.next() {
        Some(token) => text_from(reader, token),
        None => Err(TrailFault::NotATrail),
    }
}

/// As `read_text`, where this token has been read.
fn text_from<'a>(reader: &mut Reader<'a>, token: Token<'a>) -> Result<Option<&'a str>, TrailFault>
    ensures { Reads string (data_at 123 (token_of token.entry ∷ reader.old)) reader.new (seen (λ text. text.now) result) }
{
    match string_text(token) {
        Some(text) => Ok(Some(text)),
        None => {
            skip_rest(reader, token, 123)?;
            Ok(None)
        }
    }
}

fn string_text<'a>(token: Token<'a>) -> Option<&'a str>
    ensures { MatchOption result ((text : List ℕ) → ¬ (token_of token.entry ≡ string_token text)) (λ text. token_of token.entry ≡ string_token text.now) }
{
    match token {
        Token::String(text) => Some(text),
        _ => None,
    }
}

fn opens_array(token: Token<'_>) -> bool
    ensures { MatchBool result (token_of token.entry ≡ begin_array) (¬ (token_of token.entry ≡ begin_array)) }
{
    matches!(token, Token::BeginArray)
}

/// The operator with this role and this symbol.
fn operator_of(
    alloc: Global,
    role: &str,
    symbol: &str,
) -> Result<Option<AppliedOperator>, TrailFault>
    ensures { Finds operator_value (Some (two_texts role.now symbol.now)) result }
{
    match fixity_of(role) {
        Some(fixity) => {
            let symbol = read_symbol(alloc, symbol)?;
            Ok(Some(AppliedOperator { fixity, symbol }))
        }
        None => Ok(None),
    }
}

/// The role that the word names.
fn fixity_of(word: &str) -> Option<Fixity>
    ensures { MatchOption result ((fixity : SpecFixity) → ¬ (role fixity ≡ word.now)) (λ fixity. role fixity ≡ word.now) }
{
    match word {
        "prefix" => Some(Fixity::Prefix),
        "infix" => Some(Fixity::Infix),
        "postfix" => Some(Fixity::Postfix),
        _ => None,
    }
}

/// The characters of the text.
fn read_symbol(alloc: Global, text: &str) -> Result<Characters, AllocError>
    ensures { IfOk result (λ symbol. (encode_utf8_all symbol ≡ text.now) × IsOnly encode_utf8_all symbol) }
{
    let characters = characters_of(alloc, text)?;
    Ok(Characters::new(characters))
}
