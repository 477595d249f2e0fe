//! The one printed form of a start, for findings and for pages that show sets.
//!
//! It is for people: two different starts can look alike, such as two keys that exclude different characters.
ghost use Rattle.std.specs.Prelude.{◌≡◌, ◌++◌, codes, string_bytes, slice_get, IfOk, OnOk};
ghost use Rattle.std.specs.List.{join_by};
ghost use Rattle.pg_sets_own.specs.PrintedStarts.{start_text, class_text, first_ranges_text, range_text, character_text, quoted_key, word_text};

use crate::listed::ListedStart;
use pg_class::Class;
use pg_grammar_value::Grammar;
use pg_start::StartKind;
use pg_text::Characters;
use serde_json::Value;
use std::alloc::{AllocError, Global};

/// How many ranges of a class are printed; `,..` stands for those after them.
const MOST_RANGES: usize = 4;

/// The printed form of a start: a class by its first ranges, a key in the quotes of JSON, a word by the name of its word item, or operators where it has
/// none.
pub fn printed_start(
    alloc: Global,
    grammar: &Grammar,
    listed: &ListedStart,
) -> Result<String, AllocError>
    ensures { IfOk result (λ text. string_bytes text ≡ start_text grammar.now listed.now) }
{
    match listed.start.view() {
        StartKind::Class(class) => printed_class(alloc, class),
        StartKind::Key(key, _) => printed_key(alloc, key),
        StartKind::Word(_, _, _) => printed_word(alloc, grammar, listed.word),
        StartKind::End => String::from_str(alloc, "end"),
    }
}

/// The class by its first ranges.
fn printed_class(alloc: Global, class: &Class) -> Result<String, AllocError>
    ensures { IfOk result (λ text. string_bytes text ≡ class_text class.now) }
{
    let mut text = String::from_str(alloc, "class ")?;
    push_first_ranges(alloc, &mut text, class.ranges())?;
    Ok(text)
}

/// Pushes the first ranges, and a mark if there are more.
fn push_first_ranges(
    alloc: Global,
    text: &mut String,
    ranges: &[(char, char)],
) -> Result<(), AllocError>
    ensures { OnOk result (string_bytes text.new ≡ string_bytes text.old ++ first_ranges_text ranges.now) }
{
    if ranges.len() <= MOST_RANGES {
        return push_ranges(alloc, text, ranges);
    }
    push_ranges(alloc, text, &ranges[..MOST_RANGES])?;
    text.push_str(",..")
}

/// Pushes the ranges with commas between.
fn push_ranges(alloc: Global, text: &mut String, ranges: &[(char, char)]) -> Result<(), AllocError>
    ensures { OnOk result (string_bytes text.new ≡ string_bytes text.old ++ join_by range_text (codes ",") ranges.now) }
{
    if let [first, rest @ ..] = ranges {
        push_range(alloc, text, first.0, first.1)?;
        for range in rest {
            text.push_str(",")?;
            push_range(alloc, text, range.0, range.1)?;
        }
    }
    Ok(())
}

/// Pushes the first and the last character of a range, or the one character that it has.
fn push_range(alloc: Global, text: &mut String, low: char, high: char) -> Result<(), AllocError>
    ensures { OnOk result (string_bytes text.new ≡ string_bytes text.old ++ range_text (low, high)) }
{
    push_character(alloc, text, low)?;
    if low != high {
        text.push_str("-")?;
        push_character(alloc, text, high)?;
    }
    Ok(())
}

/// Pushes `U+` and the character's number, in four or more hexadecimal digits.
fn push_character(alloc: Global, text: &mut String, c: char) -> Result<(), AllocError>
    ensures { OnOk result (string_bytes text.new ≡ string_bytes text.old ++ character_text c) }
{
    let digits = format!(in alloc; "U+{:04X}", u32::from(c))?;
    text.push_str(digits.as_str())
}

/// The key's text in the quotes and with the escapes of JSON.
fn printed_key(alloc: Global, key: &Characters) -> Result<String, AllocError>
    ensures { IfOk result (λ text. string_bytes text ≡ quoted_key key.now) }
{
    let text = format!(in alloc; "{key}")?;
    let quoted = Value::String(text).to_string(alloc)?;
    format!(in alloc; "key {quoted}")
}

/// The name of the word item with this number, or the word for operators.
fn printed_word(alloc: Global, grammar: &Grammar, word: usize) -> Result<String, AllocError>
    ensures { IfOk result (λ text. string_bytes text ≡ word_text (slice_get grammar.now.words word)) }
{
    match grammar.word_items().get(word) {
        Some(item) => format!(in alloc; "word {}", item.name),
        None => String::from_str(alloc, "operator"),
    }
}
