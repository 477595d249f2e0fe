//! The texts wanted of a grammar: through every alternative, with no, one and two rounds, with each use of a rule empty and nonempty, and with each operator;
//! and strings where words and longer strings could be (`meeting`).

use crate::meeting::push_meeting;
use pg_explain_samples::{Basis, Target, Want};
use pg_grammar_form::{Form, Node, NodeId};
use pg_table::Table;
use std::alloc::{AllocError, Global};

/// The most alternatives of a choice, or operators of a table, that get texts of their own.
const ALTERNATIVES: usize = 32;
/// When this many texts are wanted, no further node adds to them.
const MOST: usize = 600;

/// A wish for a text: what should happen at a node.
#[derive(Drop)]
pub(crate) struct Ask {
    pub(crate) node: NodeId,
    pub(crate) target: Target,
    /// What the node's text should begin with, or what follows it.
    pub(crate) guide: Vec<char>,
    /// Whether the guide is for what follows the node.
    pub(crate) is_followed: bool,
}

/// All wishes for a grammar under the table.
pub(crate) fn asks_of(
    alloc: Global,
    basis: &Basis<'_>,
    table: &Table,
) -> Result<Vec<Ask>, AllocError> {
    let mut asks = Vec::new(alloc);
    push_start(alloc, basis, &mut asks)?;
    let operators = table.operators().len();
    for (number, form) in basis.grammar.nodes().iter().enumerate() {
        if asks.len() < MOST {
            push_form(alloc, NodeId::new(number), form, operators, &mut asks)?;
        }
    }
    push_meeting(alloc, basis.grammar, &mut asks)?;
    Ok(asks)
}

/// Any text of the start rule, the empty one and a nonempty one.
fn push_start(alloc: Global, basis: &Basis<'_>, asks: &mut Vec<Ask>) -> Result<(), AllocError> {
    let grammar = basis.grammar;
    match grammar.rules().get(grammar.start_rule().index()) {
        Some(rule) => {
            push(alloc, rule.body, Target::Whole(Want::Any), asks)?;
            push_use(alloc, rule.body, asks)
        }
        None => Ok(()),
    }
}

/// The wishes at a node of this form.
fn push_form(
    alloc: Global,
    node: NodeId,
    form: &Node,
    operators: usize,
    asks: &mut Vec<Ask>,
) -> Result<(), AllocError> {
    match form {
        Form::Choice(parts) => push_choice(alloc, node, parts.as_slice().len(), asks),
        Form::Many(_) | Form::Chain(_, _, _, _) => push_rounds(alloc, node, asks),
        Form::Rule(_) => push_use(alloc, node, asks),
        Form::Expression(_, _) => push_operators(alloc, node, operators, asks),
        Form::Leaf(_) | Form::Seq(_) | Form::Around(_, _) => Ok(()),
    }
}

/// Each alternative, with any text and with a nonempty one.
fn push_choice(
    alloc: Global,
    node: NodeId,
    count: usize,
    asks: &mut Vec<Ask>,
) -> Result<(), AllocError> {
    for number in 0..count.min(ALTERNATIVES) {
        push(alloc, node, Target::Alternative(number, Want::Any), asks)?;
        push(alloc, node, Target::Alternative(number, Want::Some), asks)?;
    }
    Ok(())
}

/// No round, one round and two.
fn push_rounds(alloc: Global, node: NodeId, asks: &mut Vec<Ask>) -> Result<(), AllocError> {
    for count in 0..3 {
        push(alloc, node, Target::Rounds(count), asks)?;
    }
    Ok(())
}

/// The empty text and a nonempty one.
fn push_use(alloc: Global, node: NodeId, asks: &mut Vec<Ask>) -> Result<(), AllocError> {
    push(alloc, node, Target::Whole(Want::Nothing), asks)?;
    push(alloc, node, Target::Whole(Want::Some), asks)
}

/// Each operator.
fn push_operators(
    alloc: Global,
    node: NodeId,
    count: usize,
    asks: &mut Vec<Ask>,
) -> Result<(), AllocError> {
    for number in 0..count.min(ALTERNATIVES) {
        push(
            alloc,
            node,
            Target::Applied(number, Want::Any, Want::Any),
            asks,
        )?;
    }
    Ok(())
}

fn push(
    alloc: Global,
    node: NodeId,
    target: Target,
    asks: &mut Vec<Ask>,
) -> Result<(), AllocError> {
    push_guided(alloc, node, target, &[], false, asks)
}

/// Adds a wish with a guide.
pub(crate) fn push_guided(
    alloc: Global,
    node: NodeId,
    target: Target,
    guide: &[char],
    is_followed: bool,
    asks: &mut Vec<Ask>,
) -> Result<(), AllocError> {
    let guide = Vec::from_slice(alloc, guide)?;
    asks.push(Ask {
        node,
        target,
        guide,
        is_followed,
    })?;
    Ok(())
}
