//! The nodes directly above each node: the form it is a part of, or the uses of the rule whose body it is.

use crate::forms::body_of;
use pg_grammar_form::{Form, Node, NodeId};
use pg_grammar_value::Grammar;
use pg_graph::{Numbers, empty_lists, join};
use std::alloc::{AllocError, Global};

/// For each node, the numbers of the nodes directly above it.
pub(crate) fn nodes_above(alloc: Global, grammar: &Grammar) -> Result<Vec<Numbers>, AllocError> {
    let mut above = empty_lists(alloc, grammar.nodes().len())?;
    for (number, node) in grammar.nodes().iter().enumerate() {
        join_node(grammar, number, node, &mut above)?;
    }
    Ok(above)
}

/// Records a node above each of its parts, or above the body of the rule that it uses.
fn join_node(
    grammar: &Grammar,
    number: usize,
    node: &Node,
    above: &mut [Numbers],
) -> Result<(), AllocError> {
    match node {
        Form::Seq(parts) | Form::Choice(parts) => join_each(number, parts.as_slice(), above),
        Form::Chain(_, _, operand, separator) => join_each(number, &[*operand, *separator], above),
        Form::Many(part) | Form::Expression(_, part) | Form::Around(_, part) => {
            join(above, part.index(), number)
        }
        Form::Rule(rule) => match body_of(grammar, *rule) {
            Some(body) => join(above, body.index(), number),
            None => Ok(()),
        },
        Form::Leaf(_) => Ok(()),
    }
}

fn join_each(number: usize, parts: &[NodeId], above: &mut [Numbers]) -> Result<(), AllocError> {
    for part in parts {
        join(above, part.index(), number)?;
    }
    Ok(())
}
