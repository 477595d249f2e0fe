//! The two ways of folding a chain.

/// The side from which a chain's trees are folded.
#[derive(Clone, Copy, Debug, PartialEq, Eq)]
pub enum Side {
    /// Each link makes a tree of all before it and the operand after it (`chainl1` of Text.Parsec.Combinator).
    Left,
    /// Each link makes a tree of the operand before it and all after it (`chainr1` of Text.Parsec.Combinator).
    Right,
}
