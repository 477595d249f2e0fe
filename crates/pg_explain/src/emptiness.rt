//! How a node can be empty.

use crate::steps::Steps;
use pg_explain_context::{
    Known, body_place, dead_ends, mention, nullable_marks, rule_name, shortest_way,
};
use pg_grammar_form::{Form, Node, NodeId};
use pg_grammar_value::Grammar;
use pg_graph::{Numbers, empty_lists, join};
use std::alloc::{AllocError, Global};

/// How a node can be empty, in words: a shortest way down to something that consumes nothing.
pub(crate) fn emptiness(alloc: Global, known: &Known, node: NodeId) -> Result<String, AllocError> {
    let graph = empty_by(alloc, known.grammar)?;
    let marks = nullable_marks(alloc, known.sets, known.count())?;
    let ends = dead_ends(alloc, &graph, &marks)?;
    let way = shortest_way(alloc, &graph, &marks, &ends, node.index())?;
    told_way(alloc, known, &way)
}

/// For each node, the nodes that make it empty by themselves when they are empty.
fn empty_by(alloc: Global, grammar: &Grammar) -> Result<Vec<Numbers>, AllocError> {
    let mut graph = empty_lists(alloc, grammar.nodes().len())?;
    for (number, node) in grammar.nodes().iter().enumerate() {
        join_parts(grammar, number, node, &mut graph)?;
    }
    Ok(graph)
}

/// Adds edges from a node to the nodes that make it empty by themselves.
fn join_parts(
    grammar: &Grammar,
    number: usize,
    node: &Node,
    graph: &mut Vec<Numbers>,
) -> Result<(), AllocError> {
    match node {
        Form::Choice(parts) => join_each(number, parts.as_slice(), graph),
        Form::Seq(parts) => match parts.as_slice() {
            [part] => join(graph, number, part.index()),
            _ => Ok(()),
        },
        Form::Chain(_, _, part, _) | Form::Expression(_, part) | Form::Around(_, part) => {
            join(graph, number, part.index())
        }
        Form::Rule(rule) => match grammar.rules().get(rule.index()) {
            Some(rule) => join(graph, number, rule.body.index()),
            None => Ok(()),
        },
        Form::Leaf(_) | Form::Many(_) => Ok(()),
    }
}

fn join_each(number: usize, parts: &[NodeId], graph: &mut Vec<Numbers>) -> Result<(), AllocError> {
    for part in parts {
        join(graph, number, part.index())?;
    }
    Ok(())
}

/// The rules on a way, and what consumes nothing at its end.
fn told_way(alloc: Global, known: &Known, way: &[usize]) -> Result<String, AllocError> {
    let mut steps = Steps::new(alloc);
    let Some((last, before)) = way.split_last() else {
        return steps.text(alloc);
    };
    for number in before {
        tell_rule(alloc, known, NodeId::new(*number), &mut steps)?;
    }
    let words = nothing_words(alloc, known, NodeId::new(*last))?;
    steps.tell(words)?;
    steps.text(alloc)
}

/// Appends the rule that a node uses, if it uses one.
fn tell_rule(
    alloc: Global,
    known: &Known,
    node: NodeId,
    steps: &mut Steps,
) -> Result<(), AllocError> {
    match known.rule_used(node) {
        Some(rule) => {
            let name = rule_name(alloc, known, rule.index())?;
            steps.tell_at(alloc, known, name, body_place(known, rule.index()))
        }
        None => Ok(()),
    }
}

/// Why a node consumes nothing.
fn nothing_words(alloc: Global, known: &Known, node: NodeId) -> Result<String, AllocError> {
    let named = mention(alloc, known, node)?;
    match known.form(node) {
        Some(Form::Leaf(_)) => format!(in alloc; "{named} reads nothing"),
        Some(Form::Many(_)) => format!(in alloc; "{named} can have no rounds"),
        Some(Form::Seq(parts)) => {
            if parts.as_slice().is_empty() {
                format!(in alloc; "{named} has no parts")
            } else {
                format!(in alloc; "each part of {named} can be empty")
            }
        }
        Some(
            Form::Choice(_)
            | Form::Chain(_, _, _, _)
            | Form::Rule(_)
            | Form::Expression(_, _)
            | Form::Around(_, _),
        )
        | None => format!(in alloc; "{named} can be empty"),
    }
}
