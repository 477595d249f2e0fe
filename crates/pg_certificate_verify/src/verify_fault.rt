//! Why a certificate doesn't show that its grammar is accepted.

ghost use Rattle.std.specs.Prelude.{◌≡◌};
ghost use Rattle.pg_certificate_verify.specs.declared.verify_fault.VerifyFault.TheVariants.{Memory};

use pg_grammar_form::RuleId;
use pg_predict::Broken;
use std::alloc::AllocError;

/// A condition on the claims about a rule, in the order in which it is judged (ours).
#[derive(Clone, Copy, Debug)]
pub enum Condition {
    /// A rule whose body is nullable by the claims is claimed to be.
    Nullable,
    /// Each start that can begin the body by the claims is covered by a claimed first start.
    First,
    /// Each start behind a use of the rule by the claims is covered by a claimed follow start, and for the start rule also the end.
    Follow,
    /// The rank is above the claimed ranks of the rule's heads by the claims.
    Rank,
    /// The cost is at least that of the body by the claims.
    Cost,
}

/// A claim that doesn't hold: of which rule, and which condition.
#[derive(Clone, Copy, Debug)]
pub struct NotClosed {
    /// The rule.
    pub rule: RuleId,
    /// The condition that fails.
    pub condition: Condition,
}

/// Why bytes don't show that a grammar is accepted (ours).
#[derive(Debug, Drop)]
pub enum VerifyFault {
    /// They are no JSON text (V1).
    NotJson,
    /// They are JSON, but not a certificate of the grammar (V2).
    NotACertificate,
    /// This claim doesn't hold (V3): the first that fails.
    NotClosed(NotClosed),
    /// All claims hold, and this is the first condition that is broken by them (V4).
    Broken(Broken),
    /// Memory ran out.
    Memory,
}

impl From<AllocError> for VerifyFault {
    ghost from_gives = { λ _ e. e ≡ Memory };

    fn from(_e: AllocError) -> VerifyFault {
        VerifyFault::Memory
    }
}
