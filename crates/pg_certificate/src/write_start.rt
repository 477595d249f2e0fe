//! The JSON text of starts, and of sets of starts.

ghost use Rattle.std.specs.Prelude.{◌≡◌, ◌++◌, codes, OnOk};
ghost use Rattle.std.specs.List.{AllByRecursion};
ghost use Rattle.std.specs.Str.{encode_utf8_all, IsUtf8};
ghost use Rattle.serde_json.specs.Written.{compact_text};
ghost use Rattle.pg_class.specs.Ranges.{IsClass};
ghost use Rattle.pg_certificate.specs.Fitting.{IsStorableStart};
ghost use Rattle.pg_certificate.specs.Values.{lone, number_value, text_value, range_value, class_value, key_value, word_name_at, start_value, starts_value};

use crate::certificate::ClaimedStart;
use itoa::Buffer;
use pg_class::Class;
use pg_grammar_form::WordId;
use pg_grammar_value::Grammar;
use pg_text::{Characters, utf8};
use serde_json::Value;
use std::alloc::{AllocError, Global};

/// Pushes the starts as an array.
pub fn push_starts(
    alloc: Global,
    grammar: &Grammar,
    starts: &[ClaimedStart],
    text: &mut Vec<u8>,
) -> Result<(), AllocError>
    ensures text { OnOk result (text.new.items ≡ text.old.items ++ compact_text (starts_value grammar.now starts.now)) }
    ensures storable { OnOk result (AllByRecursion (IsStorableStart grammar.now) starts.now) }
{
    text.push(b'[')?;
    if let [first, rest @ ..] = starts {
        push_start(alloc, grammar, first, text)?;
        for start in rest {
            text.push(b',')?;
            push_start(alloc, grammar, start, text)?;
        }
    }
    text.push(b']')?;
    Ok(())
}

/// Pushes a start.
#[tactic(auto, unfolding(json::specs::Print::escape_byte))]
fn push_start(
    alloc: Global,
    grammar: &Grammar,
    start: &ClaimedStart,
    text: &mut Vec<u8>,
) -> Result<(), AllocError>
    ensures text { OnOk result (text.new.items ≡ text.old.items ++ compact_text (start_value grammar.now start.now)) }
    ensures storable { OnOk result (IsStorableStart grammar.now start.now) }
{
    match start {
        ClaimedStart::Class(class) => push_class_start(class, text),
        ClaimedStart::Key(key, excluded) => push_key(alloc, key, excluded, text),
        ClaimedStart::Word(word) => push_word(alloc, grammar, *word, text),
        ClaimedStart::Operator => text.extend_from_slice(b"\"operator\""),
        ClaimedStart::End => text.extend_from_slice(b"\"end\""),
    }
}

/// Pushes a class start as an object.
#[tactic(auto, unfolding(json::specs::Print::escape_byte))]
fn push_class_start(class: &Class, text: &mut Vec<u8>) -> Result<(), AllocError>
    ensures text { OnOk result (text.new.items ≡ text.old.items ++ compact_text (lone (codes "class") (class_value class.now))) }
    ensures class { OnOk result (IsClass class.now) }
{
    text.extend_from_slice(b"{\"class\":")?;
    push_class(class, text)?;
    text.push(b'}')?;
    Ok(())
}

/// Pushes a key as an object.
#[tactic(auto, unfolding(json::specs::Print::escape_byte))]
fn push_key(
    alloc: Global,
    key: &Characters,
    excluded: &Class,
    text: &mut Vec<u8>,
) -> Result<(), AllocError>
    ensures text { OnOk result (text.new.items ≡ text.old.items ++ compact_text (key_value key.now excluded.now)) }
    ensures class { OnOk result (IsClass excluded.now) }
    ensures utf8 { OnOk result (IsUtf8 (encode_utf8_all key.now)) }
{
    text.extend_from_slice(b"{\"key\":")?;
    push_text(alloc, key, text)?;
    text.extend_from_slice(b",\"not\":")?;
    push_class(excluded, text)?;
    text.push(b'}')?;
    Ok(())
}

/// Pushes the words of an item as an object.
#[tactic(auto, unfolding(json::specs::Print::escape_byte))]
fn push_word(
    alloc: Global,
    grammar: &Grammar,
    word: WordId,
    text: &mut Vec<u8>,
) -> Result<(), AllocError>
    ensures text { OnOk result (text.new.items ≡ text.old.items ++ compact_text (lone (codes "word") (text_value (word_name_at grammar.now word)))) }
    ensures utf8 { OnOk result (IsUtf8 (encode_utf8_all (word_name_at grammar.now word))) }
{
    text.extend_from_slice(b"{\"word\":")?;
    push_word_name(alloc, grammar, word, text)?;
    text.push(b'}')?;
    Ok(())
}

/// Pushes the name of a word item in double quotes, or an empty string if there is no such item.
fn push_word_name(
    alloc: Global,
    grammar: &Grammar,
    word: WordId,
    text: &mut Vec<u8>,
) -> Result<(), AllocError>
    ensures text { OnOk result (text.new.items ≡ text.old.items ++ compact_text (text_value (word_name_at grammar.now word))) }
    ensures utf8 { OnOk result (IsUtf8 (encode_utf8_all (word_name_at grammar.now word))) }
{
    match grammar.word_items().get(word.index()) {
        Some(item) => push_text(alloc, &item.name, text),
        None => push_text(alloc, &Characters::new(Vec::new(alloc)), text),
    }
}

/// Pushes the ranges of a class as an array.
fn push_class(class: &Class, text: &mut Vec<u8>) -> Result<(), AllocError>
    ensures text { OnOk result (text.new.items ≡ text.old.items ++ compact_text (class_value class.now)) }
    ensures class { IsClass class.now }
{
    push_ranges(class.ranges(), text)
}

/// Pushes ranges as an array.
fn push_ranges(ranges: &[(char, char)], text: &mut Vec<u8>) -> Result<(), AllocError>
    ensures { OnOk result (text.new.items ≡ text.old.items ++ compact_text (class_value ranges.now)) }
{
    text.push(b'[')?;
    if let [first, rest @ ..] = ranges {
        push_range(*first, text)?;
        for range in rest {
            text.push(b',')?;
            push_range(*range, text)?;
        }
    }
    text.push(b']')?;
    Ok(())
}

/// Pushes the ends of a range as an array.
fn push_range(range: (char, char), text: &mut Vec<u8>) -> Result<(), AllocError>
    ensures { OnOk result (text.new.items ≡ text.old.items ++ compact_text (range_value range)) }
{
    text.push(b'[')?;
    push_number(range.0 as u64, text)?;
    text.push(b',')?;
    push_number(range.1 as u64, text)?;
    text.push(b']')?;
    Ok(())
}

/// Pushes a number in decimal digits.
pub fn push_number(number: u64, text: &mut Vec<u8>) -> Result<(), AllocError>
    ensures { OnOk result (text.new.items ≡ text.old.items ++ compact_text (number_value number)) }
{
    let mut digits = Buffer::new();
    text.extend_from_slice(digits.format(number).as_bytes())
}

/// Pushes a text in double quotes.
pub fn push_text(
    alloc: Global,
    characters: &Characters,
    text: &mut Vec<u8>,
) -> Result<(), AllocError>
    ensures text { OnOk result (text.new.items ≡ text.old.items ++ compact_text (text_value characters.now)) }
    ensures utf8 { OnOk result (IsUtf8 (encode_utf8_all characters.now)) }
{
    let characters = utf8(alloc, characters.as_slice())?;
    let quoted = Value::String(characters).to_string(alloc)?;
    text.extend_from_slice(quoted.as_bytes())?;
    Ok(())
}
