//! The grammar of a file's items, with the registry's meaning for their names.
//!
//! The names of each item are looked up, and it is given to a maker, in file order; the spans of the base forms are kept beside it. If the items don't make a
//! grammar, they are refused as a whole, and the first fault of a name is reported. The limits are checked before, so the maker refuses no item for its size.

ghost use Rattle.std.specs.Prelude.{◌≡◌, ◌+◌, ◌++◌, length, IfOk, IfErr, OnOk, IsErrOf};
ghost use Rattle.pg_pred.specs.Offer.{offer_of};
ghost use Rattle.pg_table.specs.Tables.{initial, whole, ComesFrom};
ghost use Rattle.pg_file_items.specs.Entries.{entry_of, entries_of};
ghost use Rattle.pg_file_making.specs.Spells.{made_classes};
ghost use Rattle.pg_file_making.specs.Spans.{item_spans, items_spans};
ghost use Rattle.pg_file_making.specs.Making.{with_entry, MayFollow, LeadsNowhere, IsProperEntry, AreProperEntries, IsGrammarOfEntries, MakeNoGrammar, IsRefusal};

use crate::handing::{
    WrittenOperators, WrittenRule, WrittenWord, class_item, operators_item, rule_item, start_item,
    table_item, unmade, word_item,
};
use crate::initials::initial_table;
use crate::name_fault::GrammarError;
use crate::names::Names;
use pg_file_items::{Item, Span};
use pg_file_meaning::MakingError;
use pg_grammar::Maker;
use pg_grammar_value::Grammar;
use pg_pred::Registry;
use pg_table::Table;
use pg_text::Characters;
use std::alloc::Global;

/// A grammar, the places where its nodes were written, and its operator table.
#[derive(Drop)]
pub struct PlacedGrammar {
    pub grammar: Grammar,
    /// For each node the characters of the written form that it comes from.
    pub spans: Vec<Span>,
    /// Its initial operator table.
    pub table: Table,
}

/// The grammar of items that a file may have, none of which passes a limit. Refused if they make none: a name is unknown or defined twice, the start names no
/// rule, or an initial operator isn't admitted. The first such fault in file order is reported.
pub fn grammar_of(
    alloc: Global,
    registry: &Registry,
    items: &[Item],
) -> Result<PlacedGrammar, GrammarError>
    requires { AreProperEntries (entries_of items.now) }
    ensures ok { IfOk result (λ made. IsGrammarOfEntries (offer_of registry.now) (entries_of items.now) made.grammar) }
    ensures count { IfOk result (λ made. length made.spans.items ≡ length made.grammar.nodes) }
    ensures spans { IfOk result (λ made. made.spans.items ≡ items_spans items.now) }
    ensures initial { IfOk result (λ made. initial made.grammar ≡ whole made.table) }
    ensures comes { IfOk result (λ made. ComesFrom made.grammar made.table) }
    ensures refused { IfErr result (λ e. IsRefusal e → MakeNoGrammar (offer_of registry.now) (entries_of items.now)) }
{
    let mut names = Names::of(alloc, items)?;
    match made_of(alloc, registry, &mut names, items) {
        Ok(made) => Ok(made),
        Err(MakingError::Memory) => Err(GrammarError::Memory),
        Err(MakingError::Refused) => Err(GrammarError::Refused(names.first_fault())),
    }
}

/// The grammar that these items make. Their names are looked up on the way.
fn made_of(
    alloc: Global,
    registry: &Registry,
    names: &mut Names<'_>,
    items: &[Item],
) -> Result<PlacedGrammar, MakingError>
    requires { AreProperEntries (entries_of items.now) }
    ensures ok { IfOk result (λ made. IsGrammarOfEntries (offer_of registry.now) (entries_of items.now) made.grammar) }
    ensures count { IfOk result (λ made. length made.spans.items ≡ length made.grammar.nodes) }
    ensures spans { IfOk result (λ made. made.spans.items ≡ items_spans items.now) }
    ensures initial { IfOk result (λ made. initial made.grammar ≡ whole made.table) }
    ensures comes { IfOk result (λ made. ComesFrom made.grammar made.table) }
    ensures refused { IsErrOf result MakingError.Refused → MakeNoGrammar (offer_of registry.now) (entries_of items.now) }
{
    let mut maker = Maker::new(alloc);
    let mut classes = Vec::new(alloc);
    let mut spans = Vec::new(alloc);
    for item in items {
        names.look_up(alloc, registry, item)?;
        hand_in(alloc, registry, &mut maker, &mut classes, &mut spans, item)?;
    }
    let grammar = match maker.finish() {
        Ok(grammar) => grammar,
        Err(unfinished) => {
            drop(unfinished.maker);
            return Err(unmade(unfinished.fault));
        }
    };
    let table = initial_table(alloc, &grammar)?;
    Ok(PlacedGrammar {
        grammar,
        spans,
        table,
    })
}

/// Gives an item to a maker. The names of the maker's class items and the spans of its base forms are kept beside it. Refused if the item can't follow the
/// parts received before, or no grammar can be made of both.
#[tactic(auto, using(crate::proofs::MakingLemmas::Turns::no_more_spans))]
fn hand_in(
    alloc: Global,
    registry: &Registry,
    maker: &mut Maker,
    classes: &mut Vec<Characters>,
    spans: &mut Vec<Span>,
    item: &Item,
) -> Result<(), MakingError>
    requires proper { IsProperEntry (entry_of item.now) }
    requires names { classes.old.items ≡ made_classes maker.old }
    requires forms { length spans.old.items ≡ length maker.old.forms }
    ensures made { OnOk result (maker.new ≡ with_entry (offer_of registry.now) maker.old (entry_of item.now)) }
    ensures follows { OnOk result (MayFollow (offer_of registry.now) maker.old (entry_of item.now)) }
    ensures names { OnOk result (classes.new.items ≡ made_classes maker.new) }
    ensures forms { OnOk result (length spans.new.items ≡ length maker.new.forms) }
    ensures spans { OnOk result (spans.new.items ≡ spans.old.items ++ item_spans item.now) }
    ensures refused { IsErrOf result MakingError.Refused → LeadsNowhere (offer_of registry.now) maker.old (entry_of item.now) }
{
    match item {
        Item::Class { name, class, .. } => {
            class_item(alloc, registry, maker, classes, name, &class.class)
        }
        Item::Word {
            name,
            head,
            rest,
            reserved,
            ..
        } => {
            let word = WrittenWord {
                name,
                head: &head.class,
                rest: &rest.class,
                reserved: reserved.as_slice(),
            };
            word_item(alloc, registry, maker, classes, &word)
        }
        Item::Operators {
            class,
            gap,
            reserved,
            most,
            ..
        } => {
            let operators = WrittenOperators {
                class: &class.class,
                gap: &gap.class,
                reserved: reserved.as_slice(),
                most: *most,
            };
            operators_item(alloc, registry, maker, classes, &operators)
        }
        Item::Table {
            role,
            precedence,
            symbol,
            ..
        } => table_item(alloc, maker, *role, *precedence, symbol),
        Item::Start { name, .. } => start_item(alloc, maker, name),
        Item::Rule { name, body, .. } => {
            let rule = WrittenRule {
                name,
                body: body.as_slice(),
            };
            rule_item(alloc, registry, maker, classes, spans, &rule)
        }
    }
}
