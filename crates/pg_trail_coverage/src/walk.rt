//! The walk along a trail.
//!
//! A trail has an item for each choice, repetition, chain and expression of a derivation, in preorder, so it says at each of them where the derivation goes on.
//! What is left to go to stands on a stack.

use crate::coverage::Coverage;
use pg_grammar_form::{Form, NodeId};
use pg_grammar_value::{AppliedOperator, Fixity, Grammar, TrailItem};
use std::alloc::{AllocError, Global};

/// What is left to go to.
#[derive(Clone, Copy)]
enum Task {
    /// A node.
    Node(NodeId),
    /// So many times a node.
    Rounds(usize, NodeId),
    /// So many times two nodes, one after the other.
    Links(usize, NodeId, NodeId),
}

/// Notes what a trail takes.
pub(crate) fn walk(
    alloc: Global,
    grammar: &Grammar,
    trail: &[TrailItem],
    coverage: &mut Coverage,
) -> Result<(), AllocError> {
    let mut left = Vec::new(alloc);
    let mut items = trail;
    if let Some(start) = grammar.rules().get(grammar.start_rule().index()) {
        left.push(Task::Node(start.body))?;
    }
    for _ in 0..u64::MAX {
        let Some(task) = left.pop() else {
            break;
        };
        items = go_on(grammar, task, items, coverage, &mut left)?;
    }
    Ok(())
}

/// Does a task, and returns the items that are left.
fn go_on<'a>(
    grammar: &Grammar,
    task: Task,
    items: &'a [TrailItem],
    coverage: &mut Coverage,
    left: &mut Vec<Task>,
) -> Result<&'a [TrailItem], AllocError> {
    match task {
        Task::Node(node) => go_to(grammar, node, items, coverage, left),
        Task::Rounds(count, node) => {
            go_round(count, node, left)?;
            Ok(items)
        }
        Task::Links(count, separator, part) => {
            go_along(count, separator, part, left)?;
            Ok(items)
        }
    }
}

/// Goes to a node so many times.
fn go_round(count: usize, node: NodeId, left: &mut Vec<Task>) -> Result<(), AllocError> {
    if count > 0 {
        left.push(Task::Rounds(count - 1, node))?;
        left.push(Task::Node(node))?;
    }
    Ok(())
}

/// Goes to two nodes so many times.
fn go_along(
    count: usize,
    separator: NodeId,
    part: NodeId,
    left: &mut Vec<Task>,
) -> Result<(), AllocError> {
    if count > 0 {
        left.push(Task::Links(count - 1, separator, part))?;
        left.push(Task::Node(part))?;
        left.push(Task::Node(separator))?;
    }
    Ok(())
}

/// Goes to a node, and returns the items that are left.
fn go_to<'a>(
    grammar: &Grammar,
    node: NodeId,
    items: &'a [TrailItem],
    coverage: &mut Coverage,
    left: &mut Vec<Task>,
) -> Result<&'a [TrailItem], AllocError> {
    let Some(form) = grammar.nodes().get(node.index()) else {
        return Ok(items);
    };
    match form {
        Form::Leaf(_) => Ok(items),
        Form::Seq(parts) => {
            push_all(parts.as_slice(), left)?;
            Ok(items)
        }
        Form::Rule(rule) => {
            push_rule(grammar, rule.index(), left)?;
            Ok(items)
        }
        Form::Around(_, part) => {
            left.push(Task::Node(*part))?;
            Ok(items)
        }
        Form::Choice(parts) => choose(node, parts.as_slice(), items, coverage, left),
        Form::Many(part) => {
            let (count, rest) = rounds(items);
            coverage.take_rounds(node.index(), count);
            left.push(Task::Rounds(count, *part))?;
            Ok(rest)
        }
        Form::Chain(_, _, part, separator) => {
            let (count, rest) = rounds(items);
            coverage.take_rounds(node.index(), count);
            left.push(Task::Links(count, *separator, *part))?;
            left.push(Task::Node(*part))?;
            Ok(rest)
        }
        Form::Expression(_, part) => {
            let (operators, rest) = operators(items);
            let count = apply(grammar, operators, coverage);
            left.push(Task::Rounds(count, *part))?;
            Ok(rest)
        }
    }
}

/// Goes to all parts of a sequence, the last of which is pushed first.
fn push_all(parts: &[NodeId], left: &mut Vec<Task>) -> Result<(), AllocError> {
    for part in parts.iter().rev() {
        left.push(Task::Node(*part))?;
    }
    Ok(())
}

/// Goes to a rule's body.
fn push_rule(grammar: &Grammar, rule: usize, left: &mut Vec<Task>) -> Result<(), AllocError> {
    if let Some(named) = grammar.rules().get(rule) {
        left.push(Task::Node(named.body))?;
    }
    Ok(())
}

/// Goes to the alternative that the next item names.
fn choose<'a>(
    node: NodeId,
    parts: &[NodeId],
    items: &'a [TrailItem],
    coverage: &mut Coverage,
    left: &mut Vec<Task>,
) -> Result<&'a [TrailItem], AllocError> {
    let [TrailItem::Alt(number), rest @ ..] = items else {
        return Ok(items);
    };
    coverage.take_alternative(node.index(), *number);
    if let Some(part) = parts.get(number.saturating_sub(1)) {
        left.push(Task::Node(*part))?;
    }
    Ok(rest)
}

/// The number of rounds of the next item, and the others.
fn rounds(items: &[TrailItem]) -> (usize, &[TrailItem]) {
    match items {
        [TrailItem::Rounds(count), rest @ ..] => (*count, rest),
        _ => (0, items),
    }
}

/// The operators of the next item, and the others.
fn operators(items: &[TrailItem]) -> (&[AppliedOperator], &[TrailItem]) {
    match items {
        [TrailItem::Ops(applied), rest @ ..] => (applied.as_slice(), rest),
        _ => (&[], items),
    }
}

/// Notes the operators of an expression, and answers how many terms it has: one more than infix operators.
fn apply(grammar: &Grammar, operators: &[AppliedOperator], coverage: &mut Coverage) -> usize {
    let mut terms: usize = 1;
    for operator in operators {
        coverage.take_operator(grammar, operator.fixity, operator.symbol.as_slice());
        if operator.fixity == Fixity::Infix {
            terms = terms.saturating_add(1);
        }
    }
    terms
}
