//! Trails: the choices of a derivation from left to right, so that it can be followed again without a search.

ghost use Rattle.std.specs.Prelude.{◌≡◌, [], ◌∷◌, ◌++◌, IfOk, OnErr, OnOk};

use pg_text::Characters;
use std::alloc::{AllocError, Global};
use std::marker::Model;

/// The side of its operands on which an operator stands.
#[derive(Clone, Copy, Debug, PartialEq, Eq)]
pub enum Fixity {
    /// Before its one operand.
    Prefix,
    /// Between its two operands.
    Infix,
    /// After its one operand.
    Postfix,
}

/// An operator of an expression, as it was read.
#[derive(Drop)]
pub struct AppliedOperator {
    /// The side of its operands on which it stands.
    pub fixity: Fixity,
    /// Its characters.
    pub symbol: Characters,
}

/// The operators of an expression in reading order, seen as their list. They are boxed, since few items of a trail have any.
#[derive(Drop)]
pub struct AppliedOperators {
    operators: Box<Vec<AppliedOperator>>,
}

impl Model for AppliedOperators {
    ghost use Rattle.std.specs.Prelude.{List};
    ghost use Rattle.pg_grammar_value.specs.declared.trail.AppliedOperator.{AppliedOperator};

    ghost Value = { List AppliedOperator };

    ghost view = { λ o. o.operators.value.items };
}

impl AppliedOperators {
    /// The list of these operators.
    pub fn new(
        alloc: Global,
        operators: Vec<AppliedOperator>,
    ) -> Result<AppliedOperators, AllocError>
        ensures { IfOk result (λ applied. applied ≡ operators.items) }
    {
        let operators = Box::new(alloc, operators)?;
        Ok(AppliedOperators { operators })
    }

    /// The operators, in reading order.
    pub fn as_slice(&self) -> &[AppliedOperator]
        ensures { result.now ≡ self.now }
    {
        self.operators.as_slice()
    }

    /// Appends an operator. The only error is running out of memory: the operators are then as they were, and the new one is gone.
    pub fn push(&mut self, operator: AppliedOperator) -> Result<(), AllocError>
        ensures ok { OnOk result (self.new ≡ self.old ++ operator ∷ []) }
        ensures err { OnErr result (self.new ≡ self.old) }
    {
        self.operators.push(operator)?;
        Ok(())
    }
}

/// The choice of one node of a derivation.
#[derive(Drop)]
pub enum TrailItem {
    /// The alternative of a choice, counted from 1.
    Alt(usize),
    /// The number of rounds of a repetition, or of separators of a chain.
    Rounds(usize),
    /// The operators of an expression.
    Ops(AppliedOperators),
}

/// The items of a derivation in preorder, seen as their list (ours; Parsec keeps no such list).
pub struct Trail {
    items: Vec<TrailItem>,
}

// Written out, so that the crates above needn't prove again how each part is dropped.
impl Drop for Trail {
    fn drop(self) {
        let Trail { items } = self;
        drop(items);
    }
}

impl Model for Trail {
    ghost use Rattle.std.specs.Prelude.{List};
    ghost use Rattle.pg_grammar_value.specs.declared.trail.TrailItem.{TrailItem};

    ghost Value = { List TrailItem };

    ghost view = { λ t. t.items.items };
}

impl Trail {
    /// The empty trail. It takes no memory.
    pub fn new(alloc: Global) -> Trail
        ensures { result ≡ [] }
    {
        Trail {
            items: Vec::new(alloc),
        }
    }

    /// The trail of these items. It takes no memory.
    pub fn from_items(items: Vec<TrailItem>) -> Trail
        ensures { result ≡ items.items }
    {
        Trail { items }
    }

    /// Appends an item. The only error is running out of memory: the trail is then as it was, and the item is gone.
    pub fn push(&mut self, item: TrailItem) -> Result<(), AllocError>
        ensures ok { OnOk result (self.new ≡ self.old ++ item ∷ []) }
        ensures err { OnErr result (self.new ≡ self.old) }
    {
        self.items.push(item)?;
        Ok(())
    }

    /// The items, in preorder of the derivation. It takes no memory.
    pub fn items(&self) -> &[TrailItem]
        ensures { result.now ≡ self.now }
    {
        self.items.as_slice()
    }
}
