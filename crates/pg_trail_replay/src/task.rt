//! The tasks of a replay.

ghost use Rattle.std.specs.Prelude.{◌≡◌, IfOk};
ghost use Rattle.pg_trail_replay.specs.View.{chain_of};

use crate::replay_fault::Mismatch;
use pg_grammar_form::{Around, ChainBuilder, NodeId, OperatorBuilders, RuleId, Side};
use pg_grammar_value::AppliedOperator;
use pg_tree::Label;
use std::alloc::AllocError;

/// The looseness of trees: how much of them reaches the result when they belong to other trees.
#[derive(Clone, Copy)]
pub enum Looseness<'a> {
    /// The trees themselves.
    Tight,
    /// Trees with the label are replaced by their kids, as they are flattened.
    Apart(&'a Label),
    /// Only their text, so a tree without text can be left out.
    OnlyText,
    /// Nothing, so all of them can be left out.
    Dropped,
}

/// A chain: the side from which it is folded, the builder, the operand and the separator.
#[derive(Clone, Copy)]
pub struct Chain<'a> {
    pub side: Side,
    pub used: &'a ChainBuilder,
    pub part: NodeId,
    pub separator: NodeId,
}

impl<'a> Chain<'a> {
    /// A copy of the chain.
    pub(crate) fn copy(&self) -> Chain<'a>
        ensures { chain_of result ≡ chain_of self.now }
    {
        Chain {
            side: self.side,
            used: self.used,
            part: self.part,
            separator: self.separator,
        }
    }
}

/// An expression: the builders of its operators, and its term (ours).
#[derive(Clone, Copy)]
pub(crate) struct Expression<'a> {
    pub builders: &'a OperatorBuilders,
    pub part: NodeId,
}

/// Where a round of a chain began: the place, the number of trees before it, and the number of items left.
#[derive(Clone, Copy)]
pub struct RoundStart {
    pub place: usize,
    pub trees: usize,
    pub items: usize,
}

/// Where something began: the place, the number of trees before it, and the number of items left. There can be as many of these as the text
/// has characters, so they have 32 bits.
#[derive(Clone, Copy)]
pub struct Start {
    pub place: u32,
    pub trees: u32,
    pub items: u32,
}

/// A form around a part: its node, where the part began, the number of operators before it, and the looseness after it.
#[derive(Clone, Copy)]
pub struct Closing<'a> {
    pub around: &'a Around,
    pub loose: Looseness<'a>,
    pub node: NodeId,
    pub operators: u32,
    pub from: Start,
}

/// The body of a rule, and where it began.
#[derive(Clone, Copy)]
pub struct Leaving {
    pub rule: RuleId,
    pub from: Start,
}

/// The number in 32 bits. The only error is that it doesn't fit.
pub(crate) fn counted(number: usize) -> Result<u32, AllocError>
    ensures { IfOk result (λ counted. counted ≡ number) }
{
    match u32::try_from(number) {
        Ok(counted) => Ok(counted),
        Err(_) => Err(AllocError),
    }
}

/// A small task.
#[derive(Clone, Copy)]
pub enum ShortTask<'a> {
    /// A node.
    Node(NodeId),
    /// The parts of a sequence.
    Parts(&'a [NodeId]),
    /// Rounds of a node.
    Rounds {
        part: NodeId,
        left: usize,
    },
    /// Sets the looseness from here on.
    Settle(Looseness<'a>),
    /// Builds the trees after the first `trees` into one.
    Fold {
        used: &'a ChainBuilder,
        trees: usize,
    },
    /// A term of an expression with this looseness, whose trees begin the next operand.
    Term(NodeId, Looseness<'a>),
    /// The symbol of an operator.
    Symbol(&'a AppliedOperator),
    /// Applies the operator to the trees of its operands.
    Application {
        builders: &'a OperatorBuilders,
        operator: &'a AppliedOperator,
    },
    /// Ends the expression, of which only the last operand is left.
    Unmark,
}

/// More rounds, of a repetition or a chain.
#[derive(Clone, Copy)]
pub enum RoundsTask<'a> {
    /// Remaining rounds, after one that began at the place, with this many trees before it and this many items left.
    MoreRounds {
        part: NodeId,
        left: usize,
        place: usize,
        trees: usize,
        items: usize,
    },
    /// Rounds of a chain, whose trees to fold come after the first `trees`.
    Links {
        chain: Chain<'a>,
        left: usize,
        trees: usize,
    },
    /// The operand after a separator, in a round that began at `from`, and then the remaining rounds.
    Operand {
        chain: Chain<'a>,
        left: usize,
        trees: usize,
        from: RoundStart,
    },
    /// Folding after an operand of a round that began at `from`, and the remaining rounds, whose trees in a right chain come after the first
    /// `later`.
    Linked {
        chain: Chain<'a>,
        left: usize,
        trees: usize,
        later: usize,
        from: RoundStart,
    },
}

/// A task: a node, or the rest of one that was entered.
#[derive(Clone, Copy)]
pub enum Task<'a> {
    Short(ShortTask<'a>),
    /// Rounds of a repetition or a chain.
    Rounds(RoundsTask<'a>),
    /// Closes a form after its part.
    Close(Closing<'a>),
    /// Ends the body of a rule.
    Leave(Leaving),
}

/// Why the next task can't be performed.
#[derive(Clone, Copy)]
pub enum Halt {
    /// The trail doesn't lead on here.
    Stopped(Mismatch),
    /// Nothing is left to do.
    Ended,
}
