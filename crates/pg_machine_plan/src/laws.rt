//! What verdicts owe, as a law.
//!
//! A law is a function that does nothing when it runs. Its clause is the law, and calling the function gives the clause.

ghost use Rattle.pg_machine_plan.specs.Verdicts.{VerdictsFollow};

/// The law that a verdict is so at every spot of every text where that character comes next, if those are so from which it is worked out.
pub fn verdicts_are_true()
    ensures { VerdictsFollow }
{}
