//! Items, one function for each kind, up to the semicolon.
//!
//! The reader of the whole file checks whether there is room for an item, and reads its semicolon.

#![tactic(auto, using(crate::proofs::ParserLemmas::Rests::ends, crate::proofs::ParserLemmas::Covered::places))]

ghost use Rattle.std.specs.Prelude.{◌≡◌, IfOk};
ghost use Rattle.pg_file_tokens.specs.View.{tokens_of};
ghost use Rattle.pg_file_items.specs.Entries.{entry_of};
ghost use Rattle.pg_file_parser.specs.Rests.{EndsWith};
ghost use Rattle.pg_file_parser.specs.Given.{Gives};
ghost use Rattle.pg_file_parser.specs.Places.{IsInPlace};
ghost use Rattle.pg_file_parser.specs.ItemReading.{class_item_at, class_after, word_item_at, operators_at, table_at, start_at, rule_at, item_at, item_named_at};

use crate::class::placed_class;
use crate::error::SyntaxError;
use crate::front::{expect_mark, expect_word, name, number, unexpected};
use crate::reserved::{most, reserved};
use crate::text::{filled_at, free_name, free_name_at, value_within};
use crate::value::value;
use pg_file_items::{Item, PlacedClass, role_named};
use pg_file_tokens::{Lexeme, Mark, is_word};
use std::alloc::Global;

/// How deep parentheses may nest.
const DEPTH_LIMIT: usize = 64;

/// The greatest precedence.
const PRECEDENCE_LIMIT: usize = 9;

/// A class item, after its word.
fn class_item(alloc: Global, tokens: &[Lexeme]) -> Result<(Item, &[Lexeme]), SyntaxError>
    ensures read { Gives (λ x. (entry_of x.0, tokens_of x.1.now)) result (class_item_at (tokens_of tokens.now)) }
    ensures places { IfOk result (λ x. IsInPlace tokens.now x.0) }
    ensures rest { IfOk result (λ x. EndsWith tokens.now x.1.now) }
{
    let (name, name_place, rest) = free_name_at(alloc, tokens)?;
    let rest = expect_mark(rest, Mark::Equals)?;
    let (class, rest) = placed_class(alloc, DEPTH_LIMIT, rest)?;
    Ok((
        Item::Class {
            name,
            name_place,
            class,
        },
        rest,
    ))
}

/// The word, and the class after it.
fn class_after<'a>(
    alloc: Global,
    word: &str,
    tokens: &'a [Lexeme],
) -> Result<(PlacedClass, &'a [Lexeme]), SyntaxError>
    ensures read { Gives (λ x. (x.0.class, tokens_of x.1.now)) result (class_after 64 word.now (tokens_of tokens.now)) }
    ensures rest { IfOk result (λ x. EndsWith tokens.now x.1.now) }
{
    placed_class(alloc, DEPTH_LIMIT, expect_word(tokens, word)?)
}

/// A word item, after its word.
fn word_item(alloc: Global, tokens: &[Lexeme]) -> Result<(Item, &[Lexeme]), SyntaxError>
    ensures read { Gives (λ x. (entry_of x.0, tokens_of x.1.now)) result (word_item_at (tokens_of tokens.now)) }
    ensures places { IfOk result (λ x. IsInPlace tokens.now x.0) }
    ensures rest { IfOk result (λ x. EndsWith tokens.now x.1.now) }
{
    let (name, name_place, after) = free_name_at(alloc, tokens)?;
    let (head, after) = class_after(alloc, "head", after)?;
    let (rest, after) = class_after(alloc, "rest", after)?;
    let (reserved, after) = reserved(alloc, after)?;
    Ok((
        Item::Word {
            name,
            name_place,
            head,
            rest,
            reserved,
        },
        after,
    ))
}

/// An operators item, after its word, which stands at a place.
fn operators(
    alloc: Global,
    place: usize,
    tokens: &[Lexeme],
) -> Result<(Item, &[Lexeme]), SyntaxError>
    ensures read { Gives (λ x. (entry_of x.0, tokens_of x.1.now)) result (operators_at (tokens_of tokens.now)) }
    ensures places { IfOk result (λ x. IsInPlace tokens.now x.0) }
    ensures rest { IfOk result (λ x. EndsWith tokens.now x.1.now) }
{
    let (class, rest) = placed_class(alloc, DEPTH_LIMIT, tokens)?;
    let (gap, rest) = class_after(alloc, "gap", rest)?;
    let (reserved, rest) = reserved(alloc, rest)?;
    let (most, rest) = most(rest)?;
    Ok((
        Item::Operators {
            class,
            gap,
            reserved,
            most,
            place,
        },
        rest,
    ))
}

/// An initial operator, after its word, which stands at a place. F3 if the precedence is over 9.
fn table(alloc: Global, place: usize, tokens: &[Lexeme]) -> Result<(Item, &[Lexeme]), SyntaxError>
    ensures read { Gives (λ x. (entry_of x.0, tokens_of x.1.now)) result (table_at (tokens_of tokens.now)) }
    ensures places { IfOk result (λ x. IsInPlace tokens.now x.0) }
    ensures rest { IfOk result (λ x. EndsWith tokens.now x.1.now) }
{
    let (word, _place, rest) = name(tokens)?;
    let Some(role) = role_named(word) else {
        return Err(unexpected(tokens));
    };
    let (digits, digits_place, rest) = number(rest)?;
    let precedence = value_within(PRECEDENCE_LIMIT, digits, digits_place)?;
    let (symbol, symbol_place, rest) = filled_at(alloc, rest)?;
    Ok((
        Item::Table {
            role,
            precedence,
            symbol,
            place,
            symbol_place,
        },
        rest,
    ))
}

/// A start item, after its word, which stands at a place.
fn start(alloc: Global, place: usize, tokens: &[Lexeme]) -> Result<(Item, &[Lexeme]), SyntaxError>
    ensures read { Gives (λ x. (entry_of x.0, tokens_of x.1.now)) result (start_at (tokens_of tokens.now)) }
    ensures places { IfOk result (λ x. IsInPlace tokens.now x.0) }
    ensures rest { IfOk result (λ x. EndsWith tokens.now x.1.now) }
{
    let (name, name_place, rest) = free_name_at(alloc, tokens)?;
    Ok((
        Item::Start {
            name,
            place,
            name_place,
        },
        rest,
    ))
}

/// A rule, after its name, which stands at a place.
fn rule<'a>(
    alloc: Global,
    name: &[char],
    place: usize,
    tokens: &'a [Lexeme],
) -> Result<(Item, &'a [Lexeme]), SyntaxError>
    ensures read { Gives (λ x. (entry_of x.0, tokens_of x.1.now)) result (rule_at name.now (tokens_of tokens.now)) }
    ensures places { IfOk result (λ x. IsInPlace tokens.now x.0) }
    ensures rest { IfOk result (λ x. EndsWith tokens.now x.1.now) }
{
    let name = free_name(alloc, name, place)?;
    let rest = expect_mark(tokens, Mark::Equals)?;
    let (body, rest) = value(alloc, DEPTH_LIMIT, rest)?;
    Ok((Item::Rule { name, place, body }, rest))
}

/// The item that a name at a place begins.
#[tactic(auto, using(crate::proofs::ParserLemmas::Rests::ends, crate::proofs::ParserLemmas::Covered::places), unfolding(crate::specs::ItemReading::item_named_at))]
fn item_named<'a>(
    alloc: Global,
    name: &[char],
    place: usize,
    rest: &'a [Lexeme],
) -> Result<(Item, &'a [Lexeme]), SyntaxError>
    ensures read { Gives (λ x. (entry_of x.0, tokens_of x.1.now)) result (item_named_at name.now (tokens_of rest.now)) }
    ensures places { IfOk result (λ x. IsInPlace rest.now x.0) }
    ensures rest { IfOk result (λ x. EndsWith rest.now x.1.now) }
{
    if is_word("class", name) {
        class_item(alloc, rest)
    } else if is_word("word", name) {
        word_item(alloc, rest)
    } else if is_word("operators", name) {
        operators(alloc, place, rest)
    } else if is_word("table", name) {
        table(alloc, place, rest)
    } else if is_word("start", name) {
        start(alloc, place, rest)
    } else {
        rule(alloc, name, place, rest)
    }
}

/// An item, up to its semicolon.
pub fn item(alloc: Global, tokens: &[Lexeme]) -> Result<(Item, &[Lexeme]), SyntaxError>
    ensures read { Gives (λ x. (entry_of x.0, tokens_of x.1.now)) result (item_at (tokens_of tokens.now)) }
    ensures places { IfOk result (λ x. IsInPlace tokens.now x.0) }
    ensures rest { IfOk result (λ x. EndsWith tokens.now x.1.now) }
{
    let (name, place, rest) = name(tokens)?;
    let (item, rest) = item_named(alloc, name, place, rest)?;
    Ok((item, rest))
}
