//! Skips values that belong to no item, token by token.
//!
//! They must be JSON whose numbers have values, or else the text wouldn't be JSON. The functions call one another at most as
//! deep as arrays and objects may nest.

ghost use Rattle.std.specs.Prelude.{◌∷◌, [], Err, None, option_map};
ghost use Rattle.json.specs.Token.{begin_array, begin_object};
ghost use Rattle.json.specs.Reads.{token_of};
ghost use Rattle.serde_json.specs.Data.{Members};
ghost use Rattle.serde_json.specs.Read.{number_of};
ghost use Rattle.pg_trail.specs.Ahead.{after, data_at, items_at, members_at};
ghost use Rattle.pg_trail.specs.Readings.{Skips};

use crate::count::count_of;
use crate::trail_fault::TrailFault;
use json::{Reader, Token};

/// Skips the value at the front.
#[cycle(skip)]
#[tactic(auto, using(crate::proofs::Ahead::no_token))]
pub(crate) fn skip_value(reader: &mut Reader<'_>, depth: usize) -> Result<(), TrailFault>
    ensures { Skips (after (data_at depth reader.old)) reader.new result }
{
    match reader.next() {
        Some(token) => skip_rest(reader, token, depth),
        None => Err(TrailFault::NotATrail),
    }
}

/// Skips the rest of the value with this first token.
#[cycle(skip)]
#[tactic(auto, using(crate::proofs::Skipping::first_tokens))]
pub(crate) fn skip_rest(
    reader: &mut Reader<'_>,
    token: Token<'_>,
    depth: usize,
) -> Result<(), TrailFault>
    ensures { Skips (after (data_at depth (token_of token.entry ∷ reader.old))) reader.new result }
{
    match token {
        Token::String(_) | Token::Bool(_) | Token::Null => Ok(()),
        Token::Number(text) => has_value(text),
        Token::EndObject | Token::EndArray | Token::Key(_) | Token::Bad => {
            Err(TrailFault::NotATrail)
        }
        Token::BeginArray => skip_array(reader, depth),
        Token::BeginObject => skip_object(reader, depth),
    }
}

/// Fails unless the number has a value.
fn has_value(text: &str) -> Result<(), TrailFault>
    ensures { Skips (option_map (λ _. []) (number_of text.now)) [] result }
{
    count_of(text)?;
    Ok(())
}

/// Skips the rest of an array.
#[cycle(skip)]
fn skip_array(reader: &mut Reader<'_>, depth: usize) -> Result<(), TrailFault>
    ensures { Skips (after (data_at depth (begin_array ∷ reader.old))) reader.new result }
{
    if depth == 0 {
        return Err(TrailFault::NotATrail);
    }
    skip_items(reader, depth - 1)
}

/// Skips the values up to the end of the array.
#[cycle(skip)]
pub(crate) fn skip_items(reader: &mut Reader<'_>, depth: usize) -> Result<(), TrailFault>
    ensures { Skips (after (items_at depth reader.old)) reader.new result }
{
    while !reader.take_end_array() {
        skip_value(reader, depth)?;
    }
    Ok(())
}

/// Skips the rest of an object.
#[cycle(skip)]
fn skip_object(reader: &mut Reader<'_>, depth: usize) -> Result<(), TrailFault>
    ensures { Skips (after (data_at depth (begin_object ∷ reader.old))) reader.new result }
{
    if depth == 0 {
        return Err(TrailFault::NotATrail);
    }
    skip_members(reader, depth - 1)
}

/// Skips the members up to the end of the object.
#[cycle(skip)]
fn skip_members(reader: &mut Reader<'_>, depth: usize) -> Result<(), TrailFault>
    ensures { (found : Members) → Skips (after (members_at depth found reader.old)) reader.new result }
{
    while let Some(_) = reader.next_key()? {
        skip_value(reader, depth)?;
    }
    Ok(())
}
