//! The items of a grammar file, one after another.
//!
//! Names are checked later, by the places that the items keep.

#![tactic(auto, using(crate::proofs::ParserLemmas::Rests::ends, crate::proofs::ParserLemmas::Covered::places))]

ghost use Rattle.std.specs.Prelude.{◌≡◌, IfOk, IfErr};
ghost use Rattle.pg_file_tokens.specs.View.{tokens_of};
ghost use Rattle.pg_file_items.specs.Entries.{entry_of, entries_of};
ghost use Rattle.pg_file_parser.specs.Rests.{EndsWith};
ghost use Rattle.pg_file_parser.specs.Items.{AreItems, OnlyItems, FaultyItems};
ghost use Rattle.pg_file_parser.specs.Given.{Gives};
ghost use Rattle.pg_file_parser.specs.Places.{IsInPlace, AreItemsInPlace};
ghost use Rattle.pg_file_parser.specs.ItemReading.{end_at, turn_at, file_at};

use crate::allowance::Allowance;
use crate::error::{SyntaxError, SyntaxFault};
use crate::front::expect_mark;
use crate::item::item;
use pg_file_items::Item;
use pg_file_tokens::{Lexeme, Mark};
use std::alloc::Global;

/// An item, the allowance left after it, and the tokens after its semicolon.
fn item_in(
    alloc: Global,
    allowance: Allowance,
    tokens: &[Lexeme],
) -> Result<(Item, Allowance, &[Lexeme]), SyntaxError>
    ensures read { Gives (λ x. ((entry_of x.0, x.1), tokens_of x.2.now)) result (turn_at allowance (tokens_of tokens.now)) }
    ensures places { IfOk result (λ x. IsInPlace tokens.now x.0) }
    ensures rest { IfOk result (λ x. EndsWith tokens.now x.2.now) }
{
    let (item, end) = item(alloc, tokens)?;
    match after_item(alloc, allowance, &item, end) {
        Ok((left, rest)) => Ok((item, left, rest)),
        Err(fault) => {
            drop(item);
            Err(fault)
        }
    }
}

/// The allowance left after an item, and the tokens after its semicolon, which is at the front. F8 at the semicolon if there is no room for the item.
fn after_item<'a>(
    alloc: Global,
    allowance: Allowance,
    item: &Item,
    end: &'a [Lexeme],
) -> Result<(Allowance, &'a [Lexeme]), SyntaxError>
    ensures read { Gives (λ x. (x.0, tokens_of x.1.now)) result (end_at allowance (entry_of item.now) (tokens_of end.now)) }
    ensures rest { IfOk result (λ x. EndsWith end.now x.1.now) }
{
    let rest = expect_mark(end, Mark::Semicolon)?;
    match allowance.after(alloc, item)? {
        Some(left) => Ok((left, rest)),
        None => Err(SyntaxError::Fault(
            SyntaxFault::LimitPassed,
            end.first().map(|first| first.place),
        )),
    }
}

fn all_items(alloc: Global, lexemes: &[Lexeme]) -> Result<Vec<Item>, SyntaxError>
    ensures read { Gives (λ items. entries_of items.items) result (file_at (tokens_of lexemes.now)) }
    ensures places { IfOk result (λ items. AreItemsInPlace lexemes.now items.items) }
{
    let mut items = Vec::new(alloc);
    let mut rest = lexemes;
    let mut allowance = Allowance::new();
    while !rest.is_empty() {
        let (item, left, after) = item_in(alloc, allowance, rest)?;
        items.push(item)?;
        allowance = left;
        rest = after;
    }
    Ok(items)
}

/// The items of a grammar file, given its tokens. The span of each form has the form's characters.
///
/// It reports the leftmost fault, and at one place the one with the lowest number: F3 at a token that can't stand there, or a `Bad` one; F7 at a wrong
/// literal; F8 at a name, a literal or a parenthesis past its limit, and at the semicolon after which there are over 256 classes, 64 words, 512 rules or
/// 8,192 nodes (ours).
#[tactic(auto, using(crate::proofs::ParserLemmas::Rests::ends, crate::proofs::ParserLemmas::Covered::places, crate::proofs::ParserLemmas::Files::are_items))]
pub fn read_items(alloc: Global, lexemes: &[Lexeme]) -> Result<Vec<Item>, SyntaxError>
    ensures items { IfOk result (λ items. AreItems (tokens_of lexemes.now) (entries_of items.items)) }
    ensures only { IfOk result (λ items. OnlyItems (tokens_of lexemes.now) (entries_of items.items)) }
    ensures places { IfOk result (λ items. AreItemsInPlace lexemes.now items.items) }
    ensures refused { IfErr result (λ e. FaultyItems (tokens_of lexemes.now) e) }
{
    let items = all_items(alloc, lexemes)?;
    Ok(items)
}
