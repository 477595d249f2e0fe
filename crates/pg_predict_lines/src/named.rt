//! What a finding names: alternatives and starts.
//!
//! Each of these questions about a finding is answered only here, so each goes through the ways in which a condition can be broken
//! only once.
ghost use Rattle.std.specs.Prelude.{◌≡◌};
ghost use Rattle.pg_predict_lines.specs.Named.{numbers, named_alternatives, named_starts, is_about_no_text};

use pg_predict::ViolationKind;

/// The numbers that a finding names.
#[derive(Clone, Copy, Debug)]
pub enum Named {
    /// None.
    Nothing,
    /// One.
    One(usize),
    /// Two, in the finding's order.
    Two(usize, usize),
}

/// The numbers of the alternatives that a finding names, from 1 (ours).
pub fn alternatives_of(kind: &ViolationKind<usize>) -> Named
    ensures { numbers result ≡ named_alternatives kind.now }
{
    match kind {
        ViolationKind::EmptyAlternative(k) | ViolationKind::AlternativeMeetsFollow(k, _, _) => {
            Named::One(*k)
        }
        ViolationKind::AlternativesMeet(j, k, _, _) => Named::Two(*j, *k),
        ViolationKind::LeftRecursion
        | ViolationKind::EmptyRound
        | ViolationKind::RoundMeetsFollow(_, _)
        | ViolationKind::EmptyOperand
        | ViolationKind::OperandMeetsOperators(_)
        | ViolationKind::FollowMeetsOperators(_)
        | ViolationKind::GapMeets(_)
        | ViolationKind::StepCostOver => Named::Nothing,
    }
}

/// The numbers of the starts that meet: both, or the one that meets operators or a gap (ours).
pub fn starts_of(kind: &ViolationKind<usize>) -> Named
    ensures { numbers result ≡ named_starts kind.now }
{
    match kind {
        ViolationKind::AlternativesMeet(_, _, one, other)
        | ViolationKind::AlternativeMeetsFollow(_, one, other)
        | ViolationKind::RoundMeetsFollow(one, other) => Named::Two(*one, *other),
        ViolationKind::OperandMeetsOperators(start)
        | ViolationKind::FollowMeetsOperators(start)
        | ViolationKind::GapMeets(start) => Named::One(*start),
        ViolationKind::LeftRecursion
        | ViolationKind::EmptyRound
        | ViolationKind::EmptyAlternative(_)
        | ViolationKind::EmptyOperand
        | ViolationKind::StepCostOver => Named::Nothing,
    }
}

/// Whether a finding is about the cost of a parse, and not about any text (ours).
pub fn is_of_no_text(kind: &ViolationKind<usize>) -> bool
    ensures { result ≡ is_about_no_text kind.now }
{
    match kind {
        ViolationKind::StepCostOver => true,
        ViolationKind::LeftRecursion
        | ViolationKind::EmptyRound
        | ViolationKind::EmptyAlternative(_)
        | ViolationKind::AlternativesMeet(_, _, _, _)
        | ViolationKind::AlternativeMeetsFollow(_, _, _)
        | ViolationKind::RoundMeetsFollow(_, _)
        | ViolationKind::EmptyOperand
        | ViolationKind::OperandMeetsOperators(_)
        | ViolationKind::FollowMeetsOperators(_)
        | ViolationKind::GapMeets(_) => false,
    }
}
