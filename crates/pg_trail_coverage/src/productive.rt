//! Which nodes derive something.

use pg_grammar_form::{Form, Node, NodeId};
use pg_grammar_value::Grammar;
use std::alloc::{AllocError, Global};

/// For each node, whether it derives something, where each leaf does. Nodes are marked until a whole pass marks none.
pub(crate) fn productive_nodes(alloc: Global, grammar: &Grammar) -> Result<Vec<bool>, AllocError> {
    let nodes = grammar.nodes();
    let mut marks = vec![in alloc; false; nodes.len()]?;
    for _ in 0..=nodes.len() {
        if !mark_more(grammar, marks.as_mut_slice()) {
            break;
        }
    }
    Ok(marks)
}

/// Marks the nodes whose parts are marked as far as they have to be, and answers whether there were any.
fn mark_more(grammar: &Grammar, marks: &mut [bool]) -> bool {
    let nodes = grammar.nodes();
    let mut has_marked = false;
    for back in 0..nodes.len() {
        let number = nodes.len() - 1 - back;
        let derives = derives(grammar, &nodes[number], marks);
        if let Some(mark) = marks.get_mut(number) {
            has_marked = has_marked || (derives && !*mark);
            *mark = *mark || derives;
        }
    }
    has_marked
}

/// Whether a node derives something by what is marked.
fn derives(grammar: &Grammar, node: &Node, marks: &[bool]) -> bool {
    match node {
        Form::Leaf(_) | Form::Many(_) => true,
        Form::Seq(parts) => parts.as_slice().iter().all(|part| is_marked(marks, *part)),
        Form::Choice(parts) => parts.as_slice().iter().any(|part| is_marked(marks, *part)),
        Form::Chain(_, _, part, _) | Form::Expression(_, part) | Form::Around(_, part) => {
            is_marked(marks, *part)
        }
        Form::Rule(rule) => match grammar.rules().get(rule.index()) {
            Some(named) => is_marked(marks, named.body),
            None => false,
        },
    }
}

/// Whether a node is marked.
pub(crate) fn is_marked(marks: &[bool], node: NodeId) -> bool {
    match marks.get(node.index()) {
        Some(mark) => *mark,
        None => false,
    }
}
