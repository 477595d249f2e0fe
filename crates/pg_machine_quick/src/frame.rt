//! What waits while code runs.
//!
//! Numbers have 32 bits, since a deep text has millions of frames; a run with greater ones gives up. A frame takes 24 bytes.

use pg_grammar_form::Role;

/// How it was before a part: how many trees there were, the place in the text, and whether something had been consumed.
#[derive(Clone, Copy)]
pub struct Before {
    /// The number of trees.
    pub trees: u32,
    /// The place in the text, in characters.
    pub place: u32,
    /// Whether something had been consumed since the last frame that notes it.
    pub taken: bool,
}

/// An operator that waits for what comes after it.
#[derive(Clone, Copy)]
pub struct Operation {
    /// Twice its row, counted from 0, the tightest, and one more if it is an infix operator.
    pub rank: u32,
    /// Its role.
    pub role: Role,
    /// Where its symbol stands in the text.
    pub place: u32,
    /// How many characters its symbol has.
    pub count: u32,
    /// The number of trees before what comes after it.
    pub trees: u32,
}

/// What waits while code runs.
#[derive(Clone, Copy)]
pub enum Frame {
    /// A call goes on there.
    Returns(u32),
    /// A form around a part. It says whether a failure of the form counts as consumed where one of the part does.
    Encloses(bool, Before),
    /// A chain or an expression, and how many trees there were before it.
    Holds(u32),
    /// An operator of the expression.
    Operates(Operation),
    /// A mark: what fails with nothing consumed since goes on there.
    Marks(u32, Before),
}
