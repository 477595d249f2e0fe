//! A trail's JSON text.
//!
//! It is compact, and is appended piece by piece to one buffer. `serde_json` writes the symbols of operators, so they have
//! its escapes.

ghost use Rattle.std.specs.Prelude.{◌≡◌, ◌<◌, ◌^◌, ◌++◌, decimal, IfOk, OnOk};
ghost use Rattle.serde_json.specs.Data.{string};
ghost use Rattle.serde_json.specs.Written.{compact_text};
ghost use Rattle.pg_trail.specs.TrailJson.{role, operator_value, operators_value, item_value, trail_value, trail_json, IsTrailText};
ghost use Rattle.pg_trail.specs.Storable.{IsSymbolText, AreSymbolsText, IsStorable, AreStorable};
ghost use Rattle.std.specs.Str.{encode_utf8_all, IsUtf8};

use itoa::Buffer;
use pg_grammar_value::{AppliedOperator, Fixity, Trail, TrailItem};
use pg_text::{Characters, utf8};
use serde_json::Value;
use std::alloc::{AllocError, Global};

/// The JSON text of a trail, without a line end. It takes time linear in the trail and its symbols.
#[tactic(auto, using(crate::proofs::Again::trail_is_text))]
pub fn write_trail(alloc: Global, trail: &Trail) -> Result<Vec<u8>, AllocError>
    ensures text { IfOk result (λ text. text.items ≡ trail_json trail.now) }
    ensures read_again { IfOk result (λ text. IsTrailText text.items trail.now) }
{
    let mut text = Vec::new(alloc);
    push_items(alloc, trail.items(), &mut text)?;
    Ok(text)
}

/// Pushes the items as an array.
#[tactic(auto, using(crate::proofs::Again::items_more))]
fn push_items(alloc: Global, items: &[TrailItem], text: &mut Vec<u8>) -> Result<(), AllocError>
    ensures text { OnOk result (text.new.items ≡ text.old.items ++ compact_text (trail_value items.now)) }
    ensures storable { OnOk result (AreStorable items.now) }
{
    text.push(b'[')?;
    if let [first, rest @ ..] = items {
        push_item(alloc, first, text)?;
        for item in rest {
            text.push(b',')?;
            push_item(alloc, item, text)?;
        }
    }
    text.push(b']')?;
    Ok(())
}

/// Pushes an item as an object.
#[tactic(auto, unfolding(json::specs::Print::escape_byte))]
fn push_item(alloc: Global, item: &TrailItem, text: &mut Vec<u8>) -> Result<(), AllocError>
    ensures text { OnOk result (text.new.items ≡ text.old.items ++ compact_text (item_value item.now)) }
    ensures storable { OnOk result (IsStorable item.now) }
{
    match item {
        TrailItem::Alt(alternative) => {
            text.extend_from_slice(b"{\"alt\":")?;
            push_number(*alternative, text)?;
        }
        TrailItem::Rounds(rounds) => {
            text.extend_from_slice(b"{\"rounds\":")?;
            push_number(*rounds, text)?;
        }
        TrailItem::Ops(operators) => {
            text.extend_from_slice(b"{\"ops\":")?;
            push_operators(alloc, operators.as_slice(), text)?;
        }
    }
    text.push(b'}')?;
    Ok(())
}

/// Pushes a number in decimal digits.
fn push_number(number: usize, text: &mut Vec<u8>) -> Result<(), AllocError>
    ensures text { OnOk result (text.new.items ≡ text.old.items ++ decimal number) }
    ensures storable { number < 2 ^ 64 }
{
    let mut digits = Buffer::new();
    text.extend_from_slice(digits.format(number).as_bytes())
}

/// Pushes the operators as an array.
#[tactic(auto, using(crate::proofs::Again::symbols_more))]
fn push_operators(
    alloc: Global,
    operators: &[AppliedOperator],
    text: &mut Vec<u8>,
) -> Result<(), AllocError>
    ensures text { OnOk result (text.new.items ≡ text.old.items ++ compact_text (operators_value operators.now)) }
    ensures storable { OnOk result (AreSymbolsText operators.now) }
{
    text.push(b'[')?;
    if let [first, rest @ ..] = operators {
        push_operator(alloc, first, text)?;
        for operator in rest {
            text.push(b',')?;
            push_operator(alloc, operator, text)?;
        }
    }
    text.push(b']')?;
    Ok(())
}

/// Pushes an operator's role and symbol as an array.
#[tactic(auto, unfolding(json::specs::Print::escape_byte))]
fn push_operator(
    alloc: Global,
    operator: &AppliedOperator,
    text: &mut Vec<u8>,
) -> Result<(), AllocError>
    ensures text { OnOk result (text.new.items ≡ text.old.items ++ compact_text (operator_value operator.now)) }
    ensures storable { OnOk result (IsSymbolText operator.now) }
{
    text.extend_from_slice(b"[\"")?;
    text.extend_from_slice(role(operator.fixity).as_bytes())?;
    text.extend_from_slice(b"\",")?;
    push_symbol(alloc, &operator.symbol, text)?;
    text.push(b']')?;
    Ok(())
}

/// The word for an operator's role.
fn role(fixity: Fixity) -> &'static str
    ensures { result.now ≡ role fixity }
{
    match fixity {
        Fixity::Prefix => "prefix",
        Fixity::Infix => "infix",
        Fixity::Postfix => "postfix",
    }
}

/// Pushes the symbol in double quotes.
fn push_symbol(alloc: Global, symbol: &Characters, text: &mut Vec<u8>) -> Result<(), AllocError>
    ensures text { OnOk result (text.new.items ≡ text.old.items ++ compact_text (string (encode_utf8_all symbol.now))) }
    ensures storable { OnOk result (IsUtf8 (encode_utf8_all symbol.now)) }
{
    let symbol = utf8(alloc, symbol.as_slice())?;
    let quoted = Value::String(symbol).to_string(alloc)?;
    text.extend_from_slice(quoted.as_bytes())?;
    Ok(())
}
