//! Conditions by their numbers and their codes.

ghost use Rattle.std.specs.Prelude.{◌≡◌};
ghost use Rattle.pg_predict.specs.Findings.{code_text, condition_number};

use pg_grammar_form::NodeId;
use pg_predict_conditions::ViolationKind;

/// A condition that is broken at a node.
#[derive(Debug, Clone, Copy)]
pub struct Broken {
    /// The node.
    pub node: NodeId,
    /// The number of the condition, as in C1 to C11.
    pub condition: u8,
}

/// The number of the condition that is broken, as in C1 to C11 (ours). It allocates no memory.
pub fn condition_number(kind: &ViolationKind<usize>) -> u8
    ensures { result ≡ condition_number kind.now }
{
    match kind {
        ViolationKind::LeftRecursion => 1,
        ViolationKind::EmptyRound => 2,
        ViolationKind::EmptyAlternative(_) => 3,
        ViolationKind::AlternativesMeet(_, _, _, _) => 4,
        ViolationKind::AlternativeMeetsFollow(_, _, _) => 5,
        ViolationKind::RoundMeetsFollow(_, _) => 6,
        ViolationKind::EmptyOperand | ViolationKind::OperandMeetsOperators(_) => 7,
        ViolationKind::FollowMeetsOperators(_) => 8,
        ViolationKind::GapMeets(_) => 9,
        ViolationKind::StepCostOver => 11,
    }
}

/// The code of the condition that is broken: C and its number (ours). It allocates no memory.
#[tactic(auto, using(crate::proofs::Codes::code_1, crate::proofs::Codes::code_2, crate::proofs::Codes::code_3, crate::proofs::Codes::code_4, crate::proofs::Codes::code_5, crate::proofs::Codes::code_6, crate::proofs::Codes::code_7, crate::proofs::Codes::code_8, crate::proofs::Codes::code_9, crate::proofs::Codes::code_11))]
pub fn code(kind: &ViolationKind<usize>) -> &'static str
    ensures { result.now ≡ code_text (condition_number kind.now) }
{
    match kind {
        ViolationKind::LeftRecursion => "C1",
        ViolationKind::EmptyRound => "C2",
        ViolationKind::EmptyAlternative(_) => "C3",
        ViolationKind::AlternativesMeet(_, _, _, _) => "C4",
        ViolationKind::AlternativeMeetsFollow(_, _, _) => "C5",
        ViolationKind::RoundMeetsFollow(_, _) => "C6",
        ViolationKind::EmptyOperand | ViolationKind::OperandMeetsOperators(_) => "C7",
        ViolationKind::FollowMeetsOperators(_) => "C8",
        ViolationKind::GapMeets(_) => "C9",
        ViolationKind::StepCostOver => "C11",
    }
}
