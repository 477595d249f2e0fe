//! The lists of roots from which each vertex is reached, by walks.
ghost use Rattle.std.specs.Prelude.{length, IfOk};
ghost use Rattle.pg_graph.specs.Graphs.{IsGathered};

use crate::numbers::{Numbers, empty_lists, join_each};
use crate::walk::reached;
use std::alloc::{AllocError, Global};

/// For each vertex, in ascending order, the numbers of the lists of roots from which it is reached. It walks once for each list of roots, so the time grows
/// with the size of the answer.
pub fn gathered(
    alloc: Global,
    graph: &[Numbers],
    roots: &[Numbers],
) -> Result<Vec<Numbers>, AllocError>
    ensures { IfOk result (λ sets. IsGathered graph.now roots.now (length roots.now) sets.items) }
{
    let mut sets = empty_lists(alloc, graph.len())?;
    for (number, from) in roots.iter().enumerate() {
        let met = reached(alloc, graph, from.as_slice())?;
        join_each(&mut sets, met.as_slice(), number)?;
    }
    Ok(sets)
}
