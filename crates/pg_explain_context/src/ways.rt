//! How a start comes into a first or a follow set.

use crate::known::Known;
use crate::paths::{dead_ends, shortest_way};
use pg_grammar_form::NodeId;
use std::alloc::{AllocError, Global};

/// A first or a follow set, by the number of its node.
#[derive(Clone, Copy)]
pub enum SetOf {
    First(usize),
    Follow(usize),
}

impl SetOf {
    /// The number of the set in the set graph: first sets have the numbers of their nodes, and follow sets come after all first sets.
    pub fn number(self, known: &Known) -> usize {
        match self {
            SetOf::First(node) => node,
            SetOf::Follow(node) => known.count().saturating_add(node),
        }
    }

    /// The set with this number.
    pub fn at(known: &Known, number: usize) -> SetOf {
        match number.checked_sub(known.count()) {
            None => SetOf::First(number),
            Some(node) => SetOf::Follow(node),
        }
    }
}

/// A shortest way, from set to set, back to one that has the start by itself. Fails where memory runs out.
pub fn way_of_start(
    alloc: Global,
    known: &Known,
    start: usize,
    set: SetOf,
) -> Result<Vec<usize>, AllocError> {
    let marks = sets_with(alloc, known, start)?;
    let ends = dead_ends(alloc, &known.contained, &marks)?;
    shortest_way(alloc, &known.contained, &marks, &ends, set.number(known))
}

/// For each first and follow set, whether it has the start.
fn sets_with(alloc: Global, known: &Known, start: usize) -> Result<Vec<bool>, AllocError> {
    let mut marks = Vec::new(alloc);
    for node in 0..known.count() {
        marks.push(known.sets.first(NodeId::new(node)).contains(start))?;
    }
    for node in 0..known.count() {
        marks.push(known.sets.follow(NodeId::new(node)).contains(start))?;
    }
    Ok(marks)
}
