//! Printing rules' bodies: each form as its word and its arguments in parentheses, with commas between them.

ghost use Rattle.std.specs.Prelude.{◌≡◌, ◌<◌, ◌∷◌, [], length, drop, codes, IfOk, OnOk};
ghost use Rattle.std.specs.Str.{chars};
ghost use Rattle.pg_grammar_form.specs.Forms.{leaf_with};
ghost use Rattle.pg_grammar_value.specs.Grammar.{rule_names, word_names};
ghost use Rattle.pg_grammar_form.specs.Names.{name_at};
ghost use Rattle.pg_file_tokens.specs.Tokens.{name, literal};
ghost use Rattle.pg_file_items.specs.Syntax as syntax;
ghost use Rattle.pg_file_items.specs.Syntax.{class_written, opened, written};
ghost use Rattle.pg_file_print.specs.Canonical.{class_from, class_names, value_at};
ghost use Rattle.pg_file_print.specs.Layout.{with_tokens};
ghost use Rattle.pg_file_print.specs.Levels.{tokens_alone, leaf_piece, around_piece, chain_piece, form_piece, builder_tokens, symbol_tokens, expression_piece, label_piece, left_over, with_piece, levels_after, node_piece, node_values, AreBodies};

use crate::class::put_class;
use crate::layout::Layout;
use crate::levels::{Ending, Level, enter, put_end};
use pg_file_tokens::{Mark, copied};
use pg_grammar_form::{
    Around, BuilderUse, ChainBuilder, ClassExpression, Form, Leaf, Node, OperatorBuilders, RuleId,
    Side, WordId,
};
use pg_grammar_value::Grammar;
use pg_text::{Characters, characters_of};
use std::alloc::{AllocError, Global};
use std::collections::VecDeque;

/// Prints the first whole body of these nodes, and returns the nodes after it.
pub fn put_body<'a>(
    alloc: Global,
    out: &mut Layout,
    grammar: &Grammar,
    nodes: &'a [Node],
) -> Result<&'a [Node], AllocError>
    requires bodies { AreBodies grammar.now nodes.now }
    requires some { 0 < length (node_values grammar.now nodes.now) }
    ensures text { OnOk result (out.new ≡ with_tokens out.old (written (value_at 0 (node_values grammar.now nodes.now)) [])) }
    ensures bodies { IfOk result (λ rest. AreBodies grammar.now rest.now) }
    ensures rest { IfOk result (λ rest. node_values grammar.now rest.now ≡ drop 1 (node_values grammar.now nodes.now)) }
{
    let mut levels = VecDeque::new(alloc);
    enter(alloc, out, &mut levels, 1, Mark::Comma, Ending::Nothing)?;
    let mut rest = nodes;
    while let Some((node, after)) = rest.split_first() {
        if levels.is_empty() {
            break;
        }
        put_node(alloc, out, grammar, node, &mut levels)?;
        rest = after;
    }
    Ok(rest)
}

/// Prints a node up to its first part or, if it has no parts, up to the next part of an open form.
fn put_node(
    alloc: Global,
    out: &mut Layout,
    grammar: &Grammar,
    node: &Node,
    levels: &mut VecDeque<Level>,
) -> Result<(), AllocError>
    ensures text { OnOk result (out.new ≡ with_piece out.old (node_piece grammar.now node.now) levels.old.items) }
    ensures levels { OnOk result (levels.new.items ≡ levels_after (node_piece grammar.now node.now) levels.old.items) }
{
    match node {
        Form::Leaf(leaf) => put_leaf(alloc, out, grammar, leaf, levels),
        Form::Seq(parts) => put_form(alloc, out, "seq", parts.as_slice().len(), levels),
        Form::Choice(parts) => put_form(alloc, out, "choice", parts.as_slice().len(), levels),
        Form::Many(_) => put_form(alloc, out, "many", 1, levels),
        Form::Chain(side, used, _, _) => put_chain(alloc, out, *side, used, levels),
        Form::Rule(rule) => put_rule(alloc, out, grammar, *rule, levels),
        Form::Expression(builders, _) => put_expression(alloc, out, builders, levels),
        Form::Around(around, _) => put_around(alloc, out, around, levels),
    }
}

fn put_leaf(
    alloc: Global,
    out: &mut Layout,
    grammar: &Grammar,
    leaf: &Leaf<WordId>,
    levels: &mut VecDeque<Level>,
) -> Result<(), AllocError>
    ensures text { OnOk result (out.new ≡ with_piece out.old (leaf_piece (class_names grammar.now) (leaf_with (name_at (word_names grammar.now)) leaf.now)) levels.old.items) }
    ensures levels { OnOk result (levels.new.items ≡ left_over levels.old.items) }
{
    match leaf {
        Leaf::Satisfy(class) => put_class_form(alloc, out, grammar, "satisfy", class, levels),
        Leaf::String(text) => put_string(alloc, out, text, levels),
        Leaf::Word(word) => put_word_form(alloc, out, grammar, *word, levels),
        Leaf::NotFollowedBy(class) => put_class_form(
            alloc,
            out,
            grammar,
            "notFollowedBy",
            class,
            levels,
        ),
        Leaf::EndOfText => put_end_of_text(alloc, out, levels),
        Leaf::Declare(class) => put_class_form(alloc, out, grammar, "declare", class, levels),
    }
}

/// Prints a form around a part, up to the part.
fn put_around(
    alloc: Global,
    out: &mut Layout,
    around: &Around,
    levels: &mut VecDeque<Level>,
) -> Result<(), AllocError>
    ensures text { OnOk result (out.new ≡ with_piece out.old (around_piece around.now) levels.old.items) }
    ensures levels { OnOk result (levels.new.items ≡ levels_after (around_piece around.now) levels.old.items) }
{
    match around {
        Around::Try => put_form(alloc, out, "try", 1, levels),
        Around::Text => put_form(alloc, out, "text", 1, levels),
        Around::Skip => put_form(alloc, out, "skip", 1, levels),
        Around::Build(used, symbol) => put_build(alloc, out, used, symbol.as_str(), levels),
        Around::Label(message) => put_label(alloc, out, message, levels),
        Around::Local => put_form(alloc, out, "local", 1, levels),
    }
}

/// Prints a form's word and its opening parenthesis.
fn put_opened(alloc: Global, out: &mut Layout, word: &str) -> Result<(), AllocError>
    ensures { OnOk result (out.new ≡ with_tokens out.old (opened word.now [])) }
{
    out.put_word(alloc, word)?;
    out.put_mark(Mark::Open)
}

/// Prints a form of this many parts, without other arguments, up to its first part.
fn put_form(
    alloc: Global,
    out: &mut Layout,
    word: &str,
    count: usize,
    levels: &mut VecDeque<Level>,
) -> Result<(), AllocError>
    ensures text { OnOk result (out.new ≡ with_piece out.old (form_piece word.now [] count) levels.old.items) }
    ensures levels { OnOk result (levels.new.items ≡ levels_after (form_piece word.now [] count) levels.old.items) }
{
    put_opened(alloc, out, word)?;
    enter(alloc, out, levels, count, Mark::Comma, Ending::Close)
}

/// Prints a form of a class expression.
#[tactic(auto, using(crate::proofs::PrinterLemmas::Tokens::laid_both))]
fn put_class_form(
    alloc: Global,
    out: &mut Layout,
    grammar: &Grammar,
    word: &str,
    class: &ClassExpression,
    levels: &mut VecDeque<Level>,
) -> Result<(), AllocError>
    ensures text { OnOk result (out.new ≡ with_piece out.old (form_piece word.now (class_written (class_from (class_names grammar.now) class.now) []) 0) levels.old.items) }
    ensures levels { OnOk result (levels.new.items ≡ left_over levels.old.items) }
{
    put_opened(alloc, out, word)?;
    put_class(alloc, out, grammar.class_items(), class)?;
    enter(alloc, out, levels, 0, Mark::Comma, Ending::Close)
}

fn put_string(
    alloc: Global,
    out: &mut Layout,
    text: &Characters,
    levels: &mut VecDeque<Level>,
) -> Result<(), AllocError>
    ensures text { OnOk result (out.new ≡ with_piece out.old (form_piece (codes "string") (literal text.now ∷ []) 0) levels.old.items) }
    ensures levels { OnOk result (levels.new.items ≡ left_over levels.old.items) }
{
    put_opened(alloc, out, "string")?;
    out.put_literal(alloc, text.as_slice())?;
    enter(alloc, out, levels, 0, Mark::Comma, Ending::Close)
}

fn put_end_of_text(
    alloc: Global,
    out: &mut Layout,
    levels: &mut VecDeque<Level>,
) -> Result<(), AllocError>
    ensures text { OnOk result (out.new ≡ with_piece out.old (tokens_alone (name (codes "eof") ∷ [])) levels.old.items) }
    ensures levels { OnOk result (levels.new.items ≡ left_over levels.old.items) }
{
    out.put_word(alloc, "eof")?;
    put_end(alloc, out, levels)
}

fn put_word_form(
    alloc: Global,
    out: &mut Layout,
    grammar: &Grammar,
    word: WordId,
    levels: &mut VecDeque<Level>,
) -> Result<(), AllocError>
    ensures text { OnOk result (out.new ≡ with_piece out.old (form_piece (codes "word") (name (name_at (word_names grammar.now) word) ∷ []) 0) levels.old.items) }
    ensures levels { OnOk result (levels.new.items ≡ left_over levels.old.items) }
{
    put_opened(alloc, out, "word")?;
    out.put_name(word_name(grammar, word))?;
    enter(alloc, out, levels, 0, Mark::Comma, Ending::Close)
}

fn put_rule(
    alloc: Global,
    out: &mut Layout,
    grammar: &Grammar,
    rule: RuleId,
    levels: &mut VecDeque<Level>,
) -> Result<(), AllocError>
    ensures text { OnOk result (out.new ≡ with_piece out.old (tokens_alone (name (name_at (rule_names grammar.now) rule) ∷ [])) levels.old.items) }
    ensures levels { OnOk result (levels.new.items ≡ left_over levels.old.items) }
{
    out.put_name(rule_name(grammar, rule))?;
    put_end(alloc, out, levels)
}

/// Prints a builder and the comma after it.
fn put_builder(alloc: Global, out: &mut Layout, name: &str) -> Result<(), AllocError>
    ensures { OnOk result (out.new ≡ with_tokens out.old (builder_tokens (chars name.now) [])) }
{
    out.put_text(alloc, name)?;
    out.put_mark(Mark::Comma)
}

#[tactic(auto, using(crate::proofs::PrinterLemmas::Tokens::laid_both))]
fn put_chain(
    alloc: Global,
    out: &mut Layout,
    side: Side,
    used: &ChainBuilder,
    levels: &mut VecDeque<Level>,
) -> Result<(), AllocError>
    ensures text { OnOk result (out.new ≡ with_piece out.old (chain_piece side used.now) levels.old.items) }
    ensures levels { OnOk result (levels.new.items ≡ levels_after (chain_piece side used.now) levels.old.items) }
{
    put_opened(alloc, out, chain_word(side))?;
    put_builder(alloc, out, used.name.as_str())?;
    put_symbol(alloc, out, used.symbol.as_str())?;
    enter(alloc, out, levels, 2, Mark::Comma, Ending::Close)
}

/// The word for a chain that is folded from this side.
fn chain_word(side: Side) -> &'static str
    ensures { result.now ≡ syntax.chain_word side }
{
    match side {
        Side::Left => "chainl1",
        Side::Right => "chainr1",
    }
}

fn put_expression(
    alloc: Global,
    out: &mut Layout,
    builders: &OperatorBuilders,
    levels: &mut VecDeque<Level>,
) -> Result<(), AllocError>
    ensures text { OnOk result (out.new ≡ with_piece out.old (expression_piece builders.now) levels.old.items) }
    ensures levels { OnOk result (levels.new.items ≡ levels_after (expression_piece builders.now) levels.old.items) }
{
    put_opened(alloc, out, "expr")?;
    put_builder(alloc, out, builders.infix.name.as_str())?;
    put_builder(alloc, out, builders.prefix.name.as_str())?;
    put_builder(alloc, out, builders.postfix.name.as_str())?;
    enter(alloc, out, levels, 1, Mark::Comma, Ending::Close)
}

/// Prints a symbol and the comma after it, unless it is empty.
fn put_symbol(alloc: Global, out: &mut Layout, symbol: &str) -> Result<(), AllocError>
    ensures { OnOk result (out.new ≡ with_tokens out.old (symbol_tokens (chars symbol.now))) }
{
    let symbol = characters_of(alloc, symbol)?;
    match symbol.as_slice() {
        [] => Ok(()),
        [_, ..] => {
            out.put_literal(alloc, symbol.as_slice())?;
            out.put_mark(Mark::Comma)
        }
    }
}

#[tactic(auto, using(crate::proofs::PrinterLemmas::Tokens::laid_both))]
fn put_build(
    alloc: Global,
    out: &mut Layout,
    used: &BuilderUse,
    symbol: &str,
    levels: &mut VecDeque<Level>,
) -> Result<(), AllocError>
    ensures text { OnOk result (out.new ≡ with_piece out.old (form_piece (codes "build") (builder_tokens (chars used.now.name) (chars symbol.now)) 1) levels.old.items) }
    ensures levels { OnOk result (levels.new.items ≡ levels_after (form_piece (codes "build") (builder_tokens (chars used.now.name) (chars symbol.now)) 1) levels.old.items) }
{
    put_opened(alloc, out, "build")?;
    put_builder(alloc, out, used.name.as_str())?;
    put_symbol(alloc, out, symbol)?;
    enter(alloc, out, levels, 1, Mark::Comma, Ending::Close)
}

fn put_label(
    alloc: Global,
    out: &mut Layout,
    message: &Characters,
    levels: &mut VecDeque<Level>,
) -> Result<(), AllocError>
    ensures text { OnOk result (out.new ≡ with_piece out.old (label_piece message.now) levels.old.items) }
    ensures levels { OnOk result (levels.new.items ≡ levels_after (label_piece message.now) levels.old.items) }
{
    put_opened(alloc, out, "label")?;
    let message = copied(alloc, message.as_slice())?;
    enter(alloc, out, levels, 1, Mark::Comma, Ending::Message(message))
}

/// The name of a rule.
pub fn rule_name(grammar: &Grammar, rule: RuleId) -> &[char]
    ensures { result.now ≡ name_at (rule_names grammar.now) rule }
{
    match grammar.rules().get(rule.index()) {
        Some(rule) => rule.name.as_slice(),
        None => &[],
    }
}

/// The name of a word item.
fn word_name(grammar: &Grammar, word: WordId) -> &[char]
    ensures { result.now ≡ name_at (word_names grammar.now) word }
{
    match grammar.word_items().get(word.index()) {
        Some(item) => item.name.as_slice(),
        None => &[],
    }
}
