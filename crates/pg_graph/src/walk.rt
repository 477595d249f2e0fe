//! The walk over a graph: which vertices are reached from some roots.
//!
//! The walk meets each reached vertex once and marks it. It follows the edges of the vertices in the order in which it
//! met them. The heads of rules are found this way; sets that name many numbers are handed on instead (`handing.rt`).
ghost use Rattle.std.specs.Prelude.{◌≡◌, ◌<◌, ◌↔◌, ℕ, true, length, OnOk, IfOk};
ghost use Rattle.std.specs.Bool.{OnTrue};
ghost use Rattle.pg_graph.specs.Graphs.{has, AreOnce, IsReached};
ghost use Rattle.pg_graph.specs.Walk.{is_new, with_all_met};

use crate::numbers::Numbers;
use std::alloc::{AllocError, Global};

/// The vertices that are reached from the roots, each once.
pub(crate) fn reached(
    alloc: Global,
    graph: &[Numbers],
    roots: &[usize],
) -> Result<Vec<usize>, AllocError>
    ensures reached { IfOk result (λ met. (v : ℕ) → (has met.items v ≡ true) ↔ IsReached graph.now roots.now v) }
    ensures once { IfOk result (λ met. AreOnce met.items) }
{
    let mut marks = vec![in alloc; false; graph.len()]?;
    let mut met = Vec::new(alloc);
    meet_all(roots, &mut marks, &mut met)?;
    let mut next = 0;
    while next < met.len() {
        let vertex = met[next];
        prove!(vertex < graph.len());
        meet_all(graph[vertex].as_slice(), &mut marks, &mut met)?;
        next += 1;
    }
    Ok(met)
}

/// Meets the vertices that have no mark yet, and marks them.
fn meet_all(
    vertices: &[usize],
    marks: &mut Vec<bool>,
    met: &mut Vec<usize>,
) -> Result<(), AllocError>
    ensures { OnOk result (record { marks = marks.new.items; met = met.new.items } ≡
        with_all_met vertices.now (record { marks = marks.old.items; met = met.old.items })) }
{
    for vertex in vertices {
        if is_new(marks, *vertex) {
            met.push(*vertex)?;
            marks[*vertex] = true;
        }
    }
    Ok(())
}

/// Whether this is a vertex without a mark.
fn is_new(marks: &[bool], vertex: usize) -> bool
    ensures same { result ≡ is_new marks.now vertex }
    ensures vertex { OnTrue result (vertex < length marks.now) }
{
    match marks.get(vertex) {
        Some(mark) => !*mark,
        None => false,
    }
}
