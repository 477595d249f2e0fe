//! The nodes that derive any text at all.

use pg_grammar_form::{Form, Node, NodeId};
use pg_grammar_value::Grammar;
use pg_graph::is_marked;
use std::alloc::{AllocError, Global};

/// For each node, whether it derives some text; a leaf is assumed to. The nodes are gone through from the last to the first, so that parts come before the
/// forms that they belong to, until nothing changes.
pub(crate) fn derivable_nodes(alloc: Global, grammar: &Grammar) -> Result<Vec<bool>, AllocError> {
    let nodes = grammar.nodes();
    let mut marks = vec![in alloc; false; nodes.len()]?;
    for _ in 0..=grammar.rules().len() {
        let mut has_changed = false;
        for (number, node) in nodes.iter().enumerate().rev() {
            if !is_marked(&marks, number)
                && derives(grammar, node, &marks)
                && number < marks.len()
            {
                marks[number] = true;
                has_changed = true;
            }
        }
        if !has_changed {
            break;
        }
    }
    Ok(marks)
}

/// Whether a node derives some text, by the marks of its parts and rules.
fn derives(grammar: &Grammar, node: &Node, marks: &[bool]) -> bool {
    match node {
        Form::Leaf(_) | Form::Many(_) => true,
        Form::Seq(parts) => parts
            .as_slice()
            .iter()
            .all(|part| is_node_marked(marks, *part)),
        Form::Choice(parts) => parts
            .as_slice()
            .iter()
            .any(|part| is_node_marked(marks, *part)),
        Form::Chain(_, _, part, _) | Form::Expression(_, part) | Form::Around(_, part) => {
            is_node_marked(marks, *part)
        }
        Form::Rule(rule) => match grammar.rules().get(rule.index()) {
            Some(rule) => is_node_marked(marks, rule.body),
            None => false,
        },
    }
}

fn is_node_marked(marks: &[bool], node: NodeId) -> bool {
    is_marked(marks, node.index())
}
