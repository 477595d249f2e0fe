//! The cost of a shortest text of each node: 16 for each character and 1 for each node of its derivation.
//!
//! The costs are the least solution of the nodes' equations. A worklist finds them: when the cost of a node falls, the nodes above it are looked at again. A
//! cost of `NONE` means that there is no such text, or none that is worth trying. Each cost is that of some derivation and never below the true one, even
//! where the turns ran out.

use crate::leading::cost_at;
use pg_grammar_form::NodeId;
use pg_grammar_value::Grammar;
use pg_graph::{Numbers, numbers_at};
use pg_sets::Sets;
use std::alloc::{AllocError, Global};

/// The cost where there is no text.
pub(crate) const NONE: u32 = 65_536;
/// The cost of a character.
pub(crate) const CHARACTER: u32 = 16;
/// How many turns the worklist has for each node.
const TURNS: usize = 64;

/// How a text has to begin.
#[derive(Clone, Copy)]
pub(crate) enum Front {
    /// In any way; it may be empty.
    Any,
    /// It has to be empty.
    Nothing,
    /// With some character.
    Some,
    /// With this character.
    Character(char),
}

/// The costs of nodes' texts, by node number.
#[derive(Drop)]
pub struct Costs {
    costs: Vec<u32>,
}

impl Costs {
    /// The cost of a node, or `NONE` if there is no such node.
    pub(crate) fn at(&self, node: NodeId) -> u32 {
        match self.costs.get(node.index()) {
            Some(cost) => *cost,
            None => NONE,
        }
    }

    /// Whether the node has such a text.
    pub(crate) fn has(&self, node: NodeId) -> bool {
        self.at(node) < NONE
    }

    /// Lowers the cost of a node to this one, if that is lower. Answers whether it was.
    fn lower(&mut self, node: usize, cost: u32) -> bool {
        if node < self.costs.len() && cost < self.costs[node] {
            self.costs[node] = cost;
            true
        } else {
            false
        }
    }
}

/// The sum of two costs, at most `NONE`.
pub(crate) fn sum(one: u32, other: u32) -> u32 {
    one.saturating_add(other).min(NONE)
}

/// The costs of any text, and of the empty text.
#[derive(Drop)]
pub(crate) struct Plain {
    pub(crate) any: Costs,
    pub(crate) nothing: Costs,
}

/// The equations for the costs of texts that begin in a given way.
#[derive(Clone, Copy)]
pub(crate) struct Equations<'g> {
    pub(crate) grammar: &'g Grammar,
    pub(crate) sets: &'g Sets,
    /// The nodes directly above each node.
    pub(crate) above: &'g [Numbers],
    pub(crate) front: Front,
}

/// The least solution of the equations. Texts that have to begin with a character need the plain costs.
pub(crate) fn solved(
    alloc: Global,
    equations: Equations<'_>,
    plain: Option<&Plain>,
) -> Result<Costs, AllocError> {
    let count = equations.grammar.nodes().len();
    let mut queue = Queue::full(alloc, count)?;
    let mut costs = Costs {
        costs: vec![in alloc; NONE; count]?,
    };
    for _turn in 0..count.saturating_mul(TURNS) {
        let Some(number) = queue.next() else {
            break;
        };
        let cost = cost_at(equations, plain, &costs, NodeId::new(number));
        if costs.lower(number, cost) {
            queue.wake(numbers_at(equations.above, number));
        }
    }
    Ok(costs)
}

/// The nodes that wait, each once. At first all of them wait, and the last comes first. Nodes that are woken come after them, in a ring.
#[derive(Drop)]
struct Queue {
    /// How many nodes haven't been taken yet: those with the least numbers.
    fresh: usize,
    /// The woken nodes,
    ring: Vec<usize>,
    /// from this place on
    first: usize,
    /// up to the place after the last,
    last: usize,
    /// and their count.
    woken: usize,
    /// Which nodes wait.
    marks: Vec<bool>,
}

impl Queue {
    /// A queue in which all nodes wait.
    fn full(alloc: Global, count: usize) -> Result<Queue, AllocError> {
        let ring = vec![in alloc; 0; count]?;
        let marks = vec![in alloc; true; count]?;
        Ok(Queue {
            fresh: count,
            ring,
            first: 0,
            last: 0,
            woken: 0,
            marks,
        })
    }

    /// The next node in the queue. It no longer waits.
    fn next(&mut self) -> Option<usize> {
        let number = if self.fresh > 0 {
            self.fresh -= 1;
            self.fresh
        } else {
            self.take()?
        };
        if number < self.marks.len() {
            self.marks[number] = false;
        }
        Some(number)
    }

    /// Takes the first woken node from the ring.
    fn take(&mut self) -> Option<usize> {
        if self.woken == 0 {
            return None;
        }
        let number = self.ring.get(self.first).copied()?;
        self.first = next_place(self.first, self.ring.len());
        self.woken -= 1;
        Some(number)
    }

    /// Makes these nodes wait.
    fn wake(&mut self, numbers: &[usize]) {
        for number in numbers {
            if *number < self.marks.len() && !self.marks[*number] {
                self.marks[*number] = true;
                self.put(*number);
            }
        }
    }

    /// Puts a node at the end of the ring.
    fn put(&mut self, number: usize) {
        if self.last < self.ring.len() {
            self.ring[self.last] = number;
            self.last = next_place(self.last, self.ring.len());
            self.woken = self.woken.saturating_add(1);
        }
    }
}

/// The place after this one in a ring of `count` places.
fn next_place(place: usize, count: usize) -> usize {
    let next = place.saturating_add(1);
    if next < count { next } else { 0 }
}
