//! For each first and follow set, the sets that it contains. These are the edges of the set graph, reversed.
//!
//! A start of a set is either in one of the sets that it contains, or the set has it by itself. So a way from set to set leads to where the start comes from.

use pg_grammar_form::NodeId;
use pg_grammar_value::Grammar;
use pg_graph::{Numbers, empty_lists, join};
use pg_sets::{Marks, Sets, join_node};
use pg_sets_own::key_tries;
use std::alloc::{AllocError, Global};

/// For each first and each follow set, the sets that it contains. Follow sets are numbered after all first sets.
pub(crate) fn contained_sets(
    alloc: Global,
    grammar: &Grammar,
    sets: &Sets,
) -> Result<Vec<Numbers>, AllocError> {
    let nodes = grammar.nodes();
    let count = nodes.len();
    let nullable = nullable_marks(alloc, sets, count)?;
    let keys = key_tries(alloc, grammar)?;
    let marks = Marks {
        nullable: &nullable,
        keys: &keys,
    };
    let mut graph = empty_lists(alloc, count + count)?;
    for (number, node) in nodes.iter().enumerate() {
        join_node(&mut graph, grammar.rules(), &marks, count, number, node)?;
    }
    turned(alloc, &graph)
}

/// For each node, whether it is nullable. Fails where memory runs out.
pub fn nullable_marks(alloc: Global, sets: &Sets, count: usize) -> Result<Vec<bool>, AllocError> {
    let mut marks = Vec::new(alloc);
    for node in 0..count {
        marks.push(sets.nullable(NodeId::new(node)))?;
    }
    Ok(marks)
}

/// The graph with its edges reversed.
fn turned(alloc: Global, graph: &[Numbers]) -> Result<Vec<Numbers>, AllocError> {
    let mut back = empty_lists(alloc, graph.len())?;
    for (from, numbers) in graph.iter().enumerate() {
        join_to_all(&mut back, numbers.as_slice(), from)?;
    }
    Ok(back)
}

/// Adds an edge from each of these vertices to one.
fn join_to_all(graph: &mut Vec<Numbers>, vertices: &[usize], to: usize) -> Result<(), AllocError> {
    for vertex in vertices {
        join(graph, *vertex, to)?;
    }
    Ok(())
}
