//! Shortest ways through a graph of numbered vertices.
//!
//! The search is breadth-first: it meets each vertex once, in the order of distance, and records the vertex that it came from.

use pg_graph::{Numbers, is_marked, numbers_at};
use std::alloc::{AllocError, Global};

/// A shortest way from a vertex through marked vertices to one of the ends, or that vertex alone if there is no such way. Fails where memory runs out.
pub fn shortest_way(
    alloc: Global,
    graph: &[Numbers],
    marks: &[bool],
    ends: &[bool],
    from: usize,
) -> Result<Vec<usize>, AllocError> {
    let mut before = vec![in alloc; None; graph.len()]?;
    let mut met = Vec::new(alloc);
    met.push(from)?;
    for next in 0..graph.len() {
        let Some(vertex) = met.get(next).copied() else {
            break;
        };
        if is_marked(ends, vertex) {
            return way_to(alloc, &before, vertex);
        }
        meet_all(graph, marks, vertex, from, &mut before, &mut met)?;
    }
    way_to(alloc, &before, from)
}

/// Meets the marked vertices that an edge from this one leads to.
fn meet_all(
    graph: &[Numbers],
    marks: &[bool],
    vertex: usize,
    from: usize,
    before: &mut Vec<Option<usize>>,
    met: &mut Vec<usize>,
) -> Result<(), AllocError> {
    for to in numbers_at(graph, vertex) {
        if is_marked(marks, *to) && *to != from {
            meet(vertex, *to, before, met)?;
        }
    }
    Ok(())
}

/// Meets a vertex, unless it was met before.
fn meet(
    vertex: usize,
    to: usize,
    before: &mut Vec<Option<usize>>,
    met: &mut Vec<usize>,
) -> Result<(), AllocError> {
    if to < before.len() && before[to].is_none() {
        before[to] = Some(vertex);
        met.push(to)?;
    }
    Ok(())
}

/// The way that the search took to a vertex.
fn way_to(
    alloc: Global,
    before: &[Option<usize>],
    vertex: usize,
) -> Result<Vec<usize>, AllocError> {
    let mut way = Vec::new(alloc);
    way.push(vertex)?;
    let mut vertex = vertex;
    for _ in 0..before.len() {
        let Some(earlier) = met_from(before, vertex) else {
            break;
        };
        way.push(earlier)?;
        vertex = earlier;
    }
    way.reverse();
    Ok(way)
}

/// The vertex that the search came from.
fn met_from(before: &[Option<usize>], vertex: usize) -> Option<usize> {
    match before.get(vertex) {
        Some(earlier) => *earlier,
        None => None,
    }
}

/// The marked vertices from which no edge leads to a marked one, as marks. Fails where memory runs out.
pub fn dead_ends(
    alloc: Global,
    graph: &[Numbers],
    marks: &[bool],
) -> Result<Vec<bool>, AllocError> {
    let mut ends = Vec::new(alloc);
    for (vertex, after) in graph.iter().enumerate() {
        ends.push(is_marked(marks, vertex) && !leads_on(marks, after.as_slice()))?;
    }
    Ok(ends)
}

/// Whether one of these is marked.
fn leads_on(marks: &[bool], after: &[usize]) -> bool {
    after.iter().any(|vertex| is_marked(marks, *vertex))
}
