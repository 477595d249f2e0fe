//! Violations: which condition is broken at a node, and by which starts.
//!
//! `S` stands for a start: its number in the grammar's sets while a grammar is judged, so that nothing is copied,
//! and the start itself in the definitions.

/// How a condition is broken. Alternatives count from 1.
#[derive(Debug, Drop)]
pub enum ViolationKind<S> {
    /// C1: the rule heads itself.
    LeftRecursion,
    /// C2: a round can be empty.
    EmptyRound,
    /// C3: this alternative can be empty and isn't the last.
    EmptyAlternative(usize),
    /// C4: these alternatives meet at these starts.
    AlternativesMeet(usize, usize, S, S),
    /// C5: this alternative meets what follows the choice, whose last alternative can be empty, at these starts.
    AlternativeMeetsFollow(usize, S, S),
    /// C6: a round meets what follows the repetition at these starts.
    RoundMeetsFollow(S, S),
    /// C7: the term of an expression can be empty.
    EmptyOperand,
    /// C7: the term of an expression meets operators at this start.
    OperandMeetsOperators(S),
    /// C8: what follows an expression meets operators at this start.
    FollowMeetsOperators(S),
    /// C9: gaps meet this start, which may come after a gap. It needn't be in the sets.
    GapMeets(S),
    /// C11: the grammar's step cost is above the limit.
    StepCostOver,
}
