//! The typed numbers that a grammar uses for its nodes, rules and items, each counted from 0 in file order.
//!
//! Contracts see each as a natural number. That a number names a node, a rule, a class item or a word item is an
//! invariant of the grammar that holds it.

ghost use Rattle.std.specs.Prelude.{◌≡◌};

use std::marker::Model;

/// The number of a node among all nodes of its grammar.
#[derive(Clone, Copy, Debug, PartialEq, Eq)]
pub struct NodeId {
    index: usize,
}

impl Model for NodeId {
    ghost use Rattle.std.specs.Prelude.{ℕ};

    ghost Value = { ℕ };

    ghost view = { λ id. id.index };

    ghost inverse = { λ n. record { index = n } };
}

impl NodeId {
    /// The node with this number.
    pub fn new(index: usize) -> NodeId
        ensures { result ≡ index }
    {
        NodeId { index }
    }

    /// How many nodes stand before it.
    pub fn index(self) -> usize
        ensures { result ≡ self }
    {
        self.index
    }
}

/// The number of a rule among all rules of its grammar.
#[derive(Clone, Copy, Debug, PartialEq, Eq)]
pub struct RuleId {
    index: usize,
}

impl Model for RuleId {
    ghost use Rattle.std.specs.Prelude.{ℕ};

    ghost Value = { ℕ };

    ghost view = { λ id. id.index };

    ghost inverse = { λ n. record { index = n } };
}

impl RuleId {
    /// The rule with this number.
    pub fn new(index: usize) -> RuleId
        ensures { result ≡ index }
    {
        RuleId { index }
    }

    /// How many rules stand before it.
    pub fn index(self) -> usize
        ensures { result ≡ self }
    {
        self.index
    }
}

/// The number of a class item among all class items of its grammar.
#[derive(Clone, Copy, Debug, PartialEq, Eq)]
pub struct ClassId {
    index: usize,
}

impl Model for ClassId {
    ghost use Rattle.std.specs.Prelude.{ℕ};

    ghost Value = { ℕ };

    ghost view = { λ id. id.index };

    ghost inverse = { λ n. record { index = n } };
}

impl ClassId {
    /// The class item with this number.
    pub fn new(index: usize) -> ClassId
        ensures { result ≡ index }
    {
        ClassId { index }
    }

    /// How many class items stand before it.
    pub fn index(self) -> usize
        ensures { result ≡ self }
    {
        self.index
    }
}

/// The number of a word item among all word items of its grammar.
#[derive(Clone, Copy, Debug, PartialEq, Eq)]
pub struct WordId {
    index: usize,
}

impl Model for WordId {
    ghost use Rattle.std.specs.Prelude.{ℕ};

    ghost Value = { ℕ };

    ghost view = { λ id. id.index };

    ghost inverse = { λ n. record { index = n } };
}

impl WordId {
    /// The word item with this number.
    pub fn new(index: usize) -> WordId
        ensures { result ≡ index }
    {
        WordId { index }
    }

    /// How many word items stand before it.
    pub fn index(self) -> usize
        ensures { result ≡ self }
    {
        self.index
    }
}
