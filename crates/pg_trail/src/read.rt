//! Bytes to a trail.
//!
//! The text is read token by token, and only the items are kept: `item.rt` reads an item, `operators.rt` the operators of
//! one, `count.rt` a number, and `skip.rt` skips values that belong to no item. Each reads what `serde_json` would read from the same tokens.

ghost use Rattle.std.specs.Prelude.{◌≡◌, ◌∷◌, IfOk, IsErrOf, List, Some, map};
ghost use Rattle.std.specs.Bool.{MatchBool};
ghost use Rattle.json.specs.Token.{begin_array, Token as SpecToken};
ghost use Rattle.serde_json.specs.Read.{read};
ghost use Rattle.serde_json.specs.View.{items_of};
ghost use Rattle.pg_grammar_value.specs.declared.trail.TrailItem.{TrailItem};
ghost use Rattle.pg_trail.specs.Ahead.{data_at, items_at};
ghost use Rattle.pg_trail.specs.Readings.{Gives, Takes};
ghost use Rattle.pg_trail.specs.TrailJson.{item_value, trail_value, IsTrailText};

use crate::item::read_item;
use crate::trail_fault::TrailFault;
use json::{Reader, Scratch, Token};
use pg_grammar_value::Trail;
use std::alloc::Global;

/// The trail that these bytes are as JSON, with any white space. The error is `TrailFault::NotATrail` if they aren't UTF-8, aren't JSON, or are JSON of
/// something else. JSON is what `serde_json` reads: the last value of a key that is given twice counts, and arrays and objects nest at
/// most 127 deep.
pub fn read_trail(alloc: Global, bytes: &[u8]) -> Result<Trail, TrailFault>
    ensures ok { IfOk result (λ trail. IsTrailText bytes.now trail) }
    ensures only { IfOk result (λ trail. (other : List TrailItem) → IsTrailText bytes.now other → other ≡ trail) }
    ensures not_a_trail { IsErrOf result TrailFault.NotATrail → (trail : List TrailItem) → ¬ (IsTrailText bytes.now trail) }
{
    match std::str::from_utf8(bytes) {
        Ok(text) => read_text(alloc, text),
        Err(_) => Err(TrailFault::NotATrail),
    }
}

/// The trail that this text is as JSON. Reading takes as much memory as the text has bytes, beside the trail.
fn read_text(alloc: Global, text: &str) -> Result<Trail, TrailFault>
    ensures { Gives (λ trail. Some (trail_value trail)) (read text.now) result }
{
    let mut scratch = Scratch::new(alloc);
    let mut reader = Reader::new(text, &mut scratch)?;
    let trail = read_list(alloc, &mut reader)?;
    match reader.next() {
        Some(_) => Err(TrailFault::NotATrail),
        None => Ok(trail),
    }
}

/// The trail at the front.
fn read_list(alloc: Global, reader: &mut Reader<'_>) -> Result<Trail, TrailFault>
    ensures { Takes trail_value (data_at 127 reader.old) reader.new result }
{
    if opens_array(reader) {
        read_each_item(alloc, reader)
    } else {
        Err(TrailFault::NotATrail)
    }
}

fn opens_array(reader: &mut Reader<'_>) -> bool
    ensures { MatchBool result (reader.old ≡ begin_array ∷ reader.new) ((rest : List SpecToken) → ¬ (reader.old ≡ begin_array ∷ rest)) }
{
    matches!(reader.next(), Some(Token::BeginArray))
}

/// The items up to the end of the list.
fn read_each_item(alloc: Global, reader: &mut Reader<'_>) -> Result<Trail, TrailFault>
    ensures { Takes (λ items. items_of (map item_value items)) (items_at 126 reader.old) reader.new result }
{
    let mut trail = Trail::new(alloc);
    'items: while !reader.take_end_array() {
        trail.push(read_item(alloc, reader)?)?;
    }
    Ok(trail)
}
