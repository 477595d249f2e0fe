//! Printing a whole grammar: one line for each item, in groups by kind.

ghost use Rattle.std.specs.Prelude.{◌≡◌, [], map, IfOk, OnOk};
ghost use Rattle.pg_grammar_form.specs.ClassItems.{item_name};
ghost use Rattle.pg_grammar_value.specs.Grammar.{rule_names};
ghost use Rattle.pg_grammar_form.specs.Names.{name_at};
ghost use Rattle.pg_file_items.specs.Tree.{Start};
ghost use Rattle.pg_file_items.specs.Syntax as syntax;
ghost use Rattle.pg_file_items.specs.Syntax.{item_written, file_written, reserved_written};
ghost use Rattle.pg_file_print.specs.Canonical.{class_names, class_item, word_item, operators_item, operators_items, table_item, rule_items, items_of};
ghost use Rattle.pg_file_print.specs.Printed.{printed};
ghost use Rattle.pg_file_print.specs.Layout.{with_tokens};
ghost use Rattle.pg_file_print.specs.Levels.{node_values};

use crate::body::{put_body, rule_name};
use crate::class::put_class;
use crate::layout::Layout;
use pg_file_tokens::Mark;
use pg_grammar_form::{ClassItem, Decl, OperatorsItem, Role, WordItem};
use pg_grammar_value::Grammar;
use pg_text::{Texts, utf8};
use std::alloc::{AllocError, Global};

/// The grammar as a file in the canonical form (ours): one line for each item; classes, words, operators, table, start and rules; base forms alone.
pub fn print(alloc: Global, grammar: &Grammar) -> Result<Vec<u8>, AllocError>
    ensures { IfOk result (λ bytes. bytes.items ≡ printed grammar.now) }
{
    let mut out = Layout::new(alloc);
    put_items(alloc, &mut out, grammar)?;
    let characters = out.into_characters();
    let text = utf8(alloc, characters.as_slice())?;
    Ok(text.into_bytes())
}

fn put_items(alloc: Global, out: &mut Layout, grammar: &Grammar) -> Result<(), AllocError>
    ensures { OnOk result (out.new ≡ with_tokens out.old (file_written (items_of grammar.now))) }
{
    put_classes(alloc, out, grammar.class_items())?;
    put_words(alloc, out, grammar.class_items(), grammar.word_items())?;
    put_operators(alloc, out, grammar)?;
    put_initials(alloc, out, grammar.initials())?;
    put_start(alloc, out, grammar)?;
    put_rules(alloc, out, grammar)
}

fn put_classes(alloc: Global, out: &mut Layout, items: &[ClassItem]) -> Result<(), AllocError>
    ensures { OnOk result (out.new ≡ with_tokens out.old (file_written (map (class_item (map item_name items.now)) items.now))) }
{
    for item in items {
        put_class_item(alloc, out, items, item)?;
    }
    Ok(())
}

#[tactic(auto, using(crate::proofs::PrinterLemmas::Tokens::laid_both))]
fn put_class_item(
    alloc: Global,
    out: &mut Layout,
    items: &[ClassItem],
    item: &ClassItem,
) -> Result<(), AllocError>
    ensures { OnOk result (out.new ≡ with_tokens out.old (item_written (class_item (map item_name items.now) item.now) [])) }
{
    out.put_word(alloc, "class")?;
    out.put_name(item.name.as_slice())?;
    out.put_mark(Mark::Equals)?;
    put_class(alloc, out, items, &item.class)?;
    out.put_mark(Mark::Semicolon)
}

fn put_words(
    alloc: Global,
    out: &mut Layout,
    classes: &[ClassItem],
    items: &[WordItem],
) -> Result<(), AllocError>
    ensures { OnOk result (out.new ≡ with_tokens out.old (file_written (map (word_item (map item_name classes.now)) items.now))) }
{
    for item in items {
        put_word_item(alloc, out, classes, item)?;
    }
    Ok(())
}

fn put_word_item(
    alloc: Global,
    out: &mut Layout,
    classes: &[ClassItem],
    item: &WordItem,
) -> Result<(), AllocError>
    ensures { OnOk result (out.new ≡ with_tokens out.old (item_written (word_item (map item_name classes.now) item.now) [])) }
{
    out.put_word(alloc, "word")?;
    out.put_name(item.name.as_slice())?;
    out.put_word(alloc, "head")?;
    put_class(alloc, out, classes, &item.head)?;
    out.put_word(alloc, "rest")?;
    put_class(alloc, out, classes, &item.rest)?;
    put_reserved(alloc, out, &item.reserved)?;
    out.put_mark(Mark::Semicolon)
}

fn put_operators(alloc: Global, out: &mut Layout, grammar: &Grammar) -> Result<(), AllocError>
    ensures { OnOk result (out.new ≡ with_tokens out.old (file_written (operators_items (class_names grammar.now) grammar.now.operators))) }
{
    match grammar.operators_item() {
        Some(item) => put_operators_item(alloc, out, grammar.class_items(), item),
        None => Ok(()),
    }
}

fn put_operators_item(
    alloc: Global,
    out: &mut Layout,
    classes: &[ClassItem],
    item: &OperatorsItem,
) -> Result<(), AllocError>
    ensures { OnOk result (out.new ≡ with_tokens out.old (item_written (operators_item (map item_name classes.now) item.now) [])) }
{
    out.put_word(alloc, "operators")?;
    put_class(alloc, out, classes, &item.class)?;
    out.put_word(alloc, "gap")?;
    put_class(alloc, out, classes, &item.gap)?;
    put_reserved(alloc, out, &item.reserved)?;
    out.put_word(alloc, "max")?;
    out.put_number(alloc, item.max)?;
    out.put_mark(Mark::Semicolon)
}

/// Prints the word `reserved` and the reserved texts, if there are any.
fn put_reserved(alloc: Global, out: &mut Layout, reserved: &Texts) -> Result<(), AllocError>
    ensures { OnOk result (out.new ≡ with_tokens out.old (reserved_written reserved.now [])) }
{
    let texts = reserved.as_slice();
    if texts.is_empty() {
        return Ok(());
    }
    out.put_word(alloc, "reserved")?;
    for text in texts {
        out.put_literal(alloc, text.as_slice())?;
    }
    Ok(())
}

fn put_initials(alloc: Global, out: &mut Layout, initials: &[Decl]) -> Result<(), AllocError>
    ensures { OnOk result (out.new ≡ with_tokens out.old (file_written (map table_item initials.now))) }
{
    for initial in initials {
        put_initial(alloc, out, initial)?;
    }
    Ok(())
}

fn put_initial(alloc: Global, out: &mut Layout, initial: &Decl) -> Result<(), AllocError>
    ensures { OnOk result (out.new ≡ with_tokens out.old (item_written (table_item initial.now) [])) }
{
    out.put_word(alloc, "table")?;
    out.put_word(alloc, role_word(initial.role()))?;
    out.put_number(alloc, usize::from(initial.precedence()))?;
    out.put_literal(alloc, initial.symbol())?;
    out.put_mark(Mark::Semicolon)
}

fn role_word(role: Role) -> &'static str
    ensures { result.now ≡ syntax.role_word role }
{
    match role {
        Role::InfixLeft => "infixl",
        Role::InfixRight => "infixr",
        Role::InfixNone => "infix",
        Role::Prefix => "prefix",
        Role::Postfix => "postfix",
    }
}

fn put_start(alloc: Global, out: &mut Layout, grammar: &Grammar) -> Result<(), AllocError>
    ensures { OnOk result (out.new ≡ with_tokens out.old (item_written (Start (name_at (rule_names grammar.now) grammar.now.start)) [])) }
{
    out.put_word(alloc, "start")?;
    out.put_name(rule_name(grammar, grammar.start_rule()))?;
    out.put_mark(Mark::Semicolon)
}

fn put_rules(alloc: Global, out: &mut Layout, grammar: &Grammar) -> Result<(), AllocError>
    ensures { OnOk result (out.new ≡ with_tokens out.old (file_written (rule_items (rule_names grammar.now) (node_values grammar.now grammar.now.nodes)))) }
{
    let mut rest = grammar.nodes();
    let rules = grammar.rules();
    for rule in rules {
        out.put_name(rule.name.as_slice())?;
        out.put_mark(Mark::Equals)?;
        rest = put_body(alloc, out, grammar, rest)?;
        out.put_mark(Mark::Semicolon)?;
    }
    Ok(())
}
