//! Sets that are handed on along the edges of a graph until none grows.
//!
//! Each vertex has a set of numbers. A vertex that waits hands its set on along its edges, and whichever set grows by that waits in turn. The order of turns
//! doesn't change the sets. In this order most sets are complete before they are handed on: first sets get their numbers from later nodes, follow sets from
//! earlier nodes and, in sequences, from later ones.
ghost use Rattle.std.specs.Prelude.{◌≡◌, ◌<◌, ◌≤◌, ◌+◌, ◌/◌, ℕ, [], false, true, length, replicate, IfOk, MatchOption};
ghost use Rattle.pg_graph_bits.specs.Numbers.{set_at};
ghost use Rattle.pg_graph.specs.Graphs.{AreSpread};
ghost use Rattle.pg_graph.specs.Marks.{is_marked};
ghost use Rattle.pg_graph.specs.Spread.{with_number_each, vertex_at, IsHandedOn};

use crate::numbers::Numbers;
use pg_graph_bits::{BitSet, unite_within};
use std::alloc::{AllocError, Global};

/// For each vertex the set of the numbers of those lists of roots from which it is reached.
pub fn spread(
    alloc: Global,
    graph: &[Numbers],
    roots: &[Numbers],
) -> Result<Vec<BitSet>, AllocError>
    ensures { IfOk result (λ sets. AreSpread graph.now roots.now sets.items) }
{
    let mut sets = empty_sets(alloc, graph.len(), roots.len())?;
    for (number, from) in roots.iter().enumerate() {
        insert_each(&mut sets, from.as_slice(), number);
    }
    let mut waits = vec![in alloc; true; graph.len()]?;
    let mut place = 0;
    while let Some(next) = next_waiting(&waits, place) {
        let vertex = vertex_at(graph.len(), next);
        waits[vertex] = false;
        hand_on(graph[vertex].as_slice(), vertex, &mut sets, &mut waits);
        place = next;
    }
    Ok(sets)
}

/// `count` empty sets, each for numbers below the limit.
fn empty_sets(alloc: Global, count: usize, limit: usize) -> Result<Vec<BitSet>, AllocError>
    ensures { IfOk result (λ sets. sets.items ≡ replicate count (replicate limit false)) }
{
    let mut sets = Vec::new(alloc);
    for _ in 0..count {
        sets.push(BitSet::new(alloc, limit)?)?;
    }
    Ok(sets)
}

/// Adds a number to each of the sets with these indices, as far as they exist.
fn insert_each(sets: &mut [BitSet], at: &[usize], number: usize)
    requires { (v : ℕ) → v < length sets.old → number < length (set_at sets.old v) }
    ensures { sets.new ≡ with_number_each sets.old at.now number }
{
    for set in at {
        if *set < sets.len() {
            sets[*set].insert(number);
        }
    }
}

/// The vertex whose turn it is: first the lower half of the vertices in descending order, then the upper half in ascending order, then the upper half in
/// descending order.
fn vertex_at(count: usize, at: usize) -> usize
    requires { at < count + count / 2 }
    ensures { result ≡ vertex_at count at }
{
    if at < count / 2 {
        count / 2 - 1 - at
    } else if at < count {
        at
    } else {
        count - 1 - (at - count)
    }
}

/// The first place from this one on whose vertex waits, or else the first of all. None if no vertex waits.
fn next_waiting(waits: &[bool], place: usize) -> Option<usize>
    ensures { MatchOption result ((v : ℕ) → is_marked waits.now v ≡ false) (λ at.
        (at < length waits.now + length waits.now / 2) × (is_marked waits.now (vertex_at (length waits.now) at) ≡ true)) }
{
    for at in place..waits.len().saturating_add(waits.len() / 2) {
        if waits[vertex_at(waits.len(), at)] {
            return Some(at);
        }
    }
    for at in 0..waits.len() {
        if waits[vertex_at(waits.len(), at)] {
            return Some(at);
        }
    }
    None
}

/// Hands a set on along these edges. Sets that grow by that then wait.
fn hand_on(edges: &[usize], from: usize, sets: &mut [BitSet], waits: &mut [bool])
    requires from { from < length sets.old }
    requires waits { length waits.old ≡ length sets.old }
    requires limit { (v : ℕ) → v < length sets.old → length (set_at sets.old v) ≡ length (set_at sets.old from) }
    ensures { IsHandedOn edges.now from sets.old waits.old sets.new waits.new }
{
    for to in edges {
        if *to < sets.len() && unite_within(sets, *to, from) {
            waits[*to] = true;
        }
    }
}
