//! Tokens to one item of a trail: an object with one member.
//!
//! Its key names the kind of choice. If the key is given again, the later value counts. So a value of another kind is a fault
//! only if it is the last one, while another key is a fault at once.

ghost use Rattle.std.specs.Prelude.{◌≡◌, ◌∷◌, List, ℕ, Some, IfOk, OnErr, codes};
ghost use Rattle.std.specs.Bool.{MatchBool};
ghost use Rattle.json.specs.Token.{begin_object, key as key_token, Token as SpecToken};
ghost use Rattle.json.specs.Json.{read_key, parse_map};
ghost use Rattle.pg_trail.specs.Ahead.{data_at};
ghost use Rattle.pg_trail.specs.Choices.{key_of};
ghost use Rattle.pg_trail.specs.Readings.{Gives, Reads, Repeats, Takes};
ghost use Rattle.pg_trail.specs.TrailJson.{lone, item_value};

use crate::count::read_count;
use crate::operators::read_operators;
use crate::trail_fault::TrailFault;
use json::{Reader, Token};
use pg_grammar_value::TrailItem;
use std::alloc::Global;

/// The kind of choice that an item's key names.
#[derive(Clone, Copy)]
pub(crate) enum Choice {
    /// Which alternative.
    Alternative,
    /// How many rounds.
    Repetition,
    /// Which operators.
    Operators,
}

/// The item whose value stands at the front.
#[tactic(auto, using(crate::proofs::Members::no_item_there))]
pub(crate) fn read_item(alloc: Global, reader: &mut Reader<'_>) -> Result<TrailItem, TrailFault>
    ensures { Takes item_value (data_at 126 reader.old) reader.new result }
{
    if opens_object(reader) {
        read_members(alloc, reader)
    } else {
        Err(TrailFault::NotATrail)
    }
}

fn opens_object(reader: &mut Reader<'_>) -> bool
    ensures { MatchBool result (reader.old ≡ begin_object ∷ reader.new) ((rest : List SpecToken) → ¬ (reader.old ≡ begin_object ∷ rest)) }
{
    matches!(reader.next(), Some(Token::BeginObject))
}

/// The item whose members stand here, up to the end of the object.
fn read_members(alloc: Global, reader: &mut Reader<'_>) -> Result<TrailItem, TrailFault>
    ensures { Takes item_value (data_at 126 (begin_object ∷ reader.old)) reader.new result }
{
    let key = first_key(reader)?;
    let choice = choice_of(key)?;
    read_last(alloc, reader, key, choice)
}

/// The first key of an object.
fn first_key<'a>(reader: &mut Reader<'a>) -> Result<&'a str, TrailFault>
    ensures ok { IfOk result (λ key. read_key reader.old ≡ Some (Some key.now, reader.new)) }
    ensures err { OnErr result ((key : List ℕ) (rest : List SpecToken) → ¬ (read_key reader.old ≡ Some (Some key, rest))) }
{
    match reader.next_key() {
        Ok(Some(key)) => Ok(key),
        Ok(None) | Err(_) => Err(TrailFault::NotATrail),
    }
}

/// The kind of choice that the key names.
fn choice_of(key: &str) -> Result<Choice, TrailFault>
    ensures { Gives key_of key.now result }
{
    match key {
        "alt" => Ok(Choice::Alternative),
        "rounds" => Ok(Choice::Repetition),
        "ops" => Ok(Choice::Operators),
        _ => Err(TrailFault::NotATrail),
    }
}

/// The item of the last value under this key, which has been read.
fn read_last(
    alloc: Global,
    reader: &mut Reader<'_>,
    key: &str,
    choice: Choice,
) -> Result<TrailItem, TrailFault>
    requires { key.now ≡ key_of choice }
    ensures { Takes item_value (data_at 126 (begin_object ∷ key_token (key_of choice) ∷ reader.old)) reader.new result }
{
    let mut item = read_chosen(alloc, reader, choice)?;
    'again: while comes_again(reader, key)? {
        item = read_chosen(alloc, reader, choice)?;
    }
    item.ok_or(TrailFault::NotATrail)
}

/// Whether the key is given again; if not, the object ends.
fn comes_again(reader: &mut Reader<'_>, key: &str) -> Result<bool, TrailFault>
    ensures { Repeats key.now (read_key reader.old) reader.new result }
{
    match reader.next_key() {
        Ok(Some(next)) if next == key => Ok(true),
        Ok(None) => Ok(false),
        Ok(Some(_)) | Err(_) => Err(TrailFault::NotATrail),
    }
}

/// The item of this kind with the value at the front.
fn read_chosen(
    alloc: Global,
    reader: &mut Reader<'_>,
    choice: Choice,
) -> Result<Option<TrailItem>, TrailFault>
    ensures { Reads item_value (parse_map (lone (key_of choice)) (data_at 125 reader.old)) reader.new result }
{
    match choice {
        Choice::Alternative => read_alternative(reader),
        Choice::Repetition => read_rounds(reader),
        Choice::Operators => read_applied(alloc, reader),
    }
}

fn read_alternative(reader: &mut Reader<'_>) -> Result<Option<TrailItem>, TrailFault>
    ensures { Reads item_value (parse_map (lone (codes "alt")) (data_at 125 reader.old)) reader.new result }
{
    match read_count(reader)? {
        Some(alternative) => Ok(Some(TrailItem::Alt(alternative))),
        None => Ok(None),
    }
}

fn read_rounds(reader: &mut Reader<'_>) -> Result<Option<TrailItem>, TrailFault>
    ensures { Reads item_value (parse_map (lone (codes "rounds")) (data_at 125 reader.old)) reader.new result }
{
    match read_count(reader)? {
        Some(rounds) => Ok(Some(TrailItem::Rounds(rounds))),
        None => Ok(None),
    }
}

fn read_applied(alloc: Global, reader: &mut Reader<'_>) -> Result<Option<TrailItem>, TrailFault>
    ensures { Reads item_value (parse_map (lone (codes "ops")) (data_at 125 reader.old)) reader.new result }
{
    match read_operators(alloc, reader)? {
        Some(operators) => Ok(Some(TrailItem::Ops(operators))),
        None => Ok(None),
    }
}
