//! What a derivation may take of a node.

/// What a derivation may take (ours).
#[derive(Clone, Copy, PartialEq, Eq)]
pub enum What {
    /// The alternative of a choice with this number, from 1.
    Alternative(usize),
    /// A repetition without rounds, or a chain without separators.
    NoRound,
    /// One with one.
    OneRound,
    /// One with more.
    MoreRounds,
    /// The operator of the initial table with this index.
    Operator(usize),
}

/// What may be taken of the node with this index; of an operator the index of no node.
#[derive(Clone, Copy)]
pub struct Turn {
    pub node: usize,
    pub what: What,
    /// Whether a derivation from the start can take it.
    pub is_possible: bool,
    /// Whether one did.
    pub is_taken: bool,
}

impl Turn {
    /// A turn of a node that nothing is known of.
    pub(crate) fn new(node: usize, what: What) -> Turn {
        Turn {
            node,
            what,
            is_possible: false,
            is_taken: false,
        }
    }
}
