//! The parts of a node: a list of node numbers, in order.
//!
//! Contracts see it as a list of natural numbers. In a grammar, the parts of a node have greater numbers than the node.
//! That is an invariant of the grammar and not of the list.

ghost use Rattle.std.specs.Prelude.{◌≡◌};

use crate::number::NodeId;
use std::marker::Model;

/// The numbers of a node's parts, in order, seen as a list of numbers.
#[derive(Drop)]
pub struct Parts {
    numbers: Vec<NodeId>,
}

impl Model for Parts {
    ghost use Rattle.std.specs.Prelude.{ℕ, List};

    ghost Value = { List ℕ };

    ghost view = { λ parts. parts.numbers.items };
}

impl Parts {
    /// The parts with these numbers. It takes no memory.
    pub fn new(numbers: Vec<NodeId>) -> Parts
        ensures { result ≡ numbers.items }
    {
        Parts { numbers }
    }

    /// The numbers, in order.
    pub fn as_slice(&self) -> &[NodeId]
        ensures { result.now ≡ self.now }
    {
        self.numbers.as_slice()
    }
}
