//! Whether bytes are a certificate that shows its grammar to be accepted.
//!
//! First the claims must hold (`verify_claims`); then the conditions of accepted grammars are judged by the claimed sets and cost.

ghost use Rattle.std.specs.Prelude.{◌≡◌, [], IfOk, OnOk, IfErr};
ghost use Rattle.pg_predict.specs.Broken.{IsFirstBroken};
ghost use Rattle.pg_predict_conditions.specs.Conditions.{claimed_facts};
ghost use Rattle.pg_predict_conditions.specs.Shown.{AreWellFormed};
ghost use Rattle.pg_certificate_verify.specs.Judged.{said_by};
ghost use Rattle.pg_certificate_verify.specs.Lists.{nodes_of};
ghost use Rattle.pg_certificate_verify.specs.Refuted.{IsVerified, IsRefuted, FitsFault};
ghost use Rattle.pg_certificate_verify.specs.Verified.{ClaimsHold};

use crate::breaking::first_breaking;
use crate::sets_by::ClaimedSets;
use crate::verdict::ClaimedFacts;
use crate::verify_fault::VerifyFault;
use crate::verifying::verify_claims;
use pg_grammar_value::Grammar;
use pg_predict::{Broken, first_broken};
use pg_predict_costs::cost_by_costs;
use pg_sets::Sets;
use std::alloc::{AllocError, Global};

/// Up to so many starts a table of which ones meet is quicker than comparing starts wherever a condition asks. No grammar has as many of
/// its own.
const MOST_IN_TABLE: usize = 16384;

/// Whether the bytes are a certificate that shows the grammar to be accepted, whoever made it. The errors, in this order: `VerifyFault::NotJson` (V1) if
/// they are no JSON text, `NotACertificate` (V2) if they are JSON of something else, `NotClosed` (V3) with the first claim that doesn't hold,
/// `Broken` (V4) with the first condition that is broken by the claims. `Memory` if memory runs out.
pub fn verify(alloc: Global, grammar: &Grammar, bytes: &[u8]) -> Result<(), VerifyFault>
    ensures verified { OnOk result (IsVerified grammar.now bytes.now) }
    ensures refuted { IfErr result (IsRefuted grammar.now bytes.now) }
    ensures fits { IfErr result (FitsFault grammar.now) }
{
    match verify_claims(alloc, grammar, bytes) {
        Ok(facts) => judge(alloc, grammar, bytes, facts),
        Err(fault) => Err(fault),
    }
}

/// Judges the conditions by the claims, which hold.
fn judge(
    alloc: Global,
    grammar: &Grammar,
    bytes: &[u8],
    facts: ClaimedFacts,
) -> Result<(), VerifyFault>
    requires { ClaimsHold grammar.now bytes.now (said_by facts) (nodes_of facts.sets) }
    ensures verified { OnOk result (IsVerified grammar.now bytes.now) }
    ensures refuted { IfErr result (IsRefuted grammar.now bytes.now) }
    ensures fits { IfErr result (FitsFault grammar.now) }
{
    let cost = cost_by_costs(alloc, grammar, facts.costs.as_slice())?;
    let sets = sets_of(alloc, facts)?;
    match first_by_claims(alloc, grammar, sets, cost)? {
        Some(broken) => Err(VerifyFault::Broken(broken)),
        None => Ok(()),
    }
}

/// The first condition that is broken by the claims, found in the way that suits so many starts.
fn first_by_claims(
    alloc: Global,
    grammar: &Grammar,
    sets: Sets,
    cost: u64,
) -> Result<Option<Broken>, AllocError>
    requires { AreWellFormed grammar.now sets }
    ensures { IfOk result (IsFirstBroken grammar.now (claimed_facts sets cost)) }
{
    if sets.starts().len() <= MOST_IN_TABLE {
        return first_broken(alloc, grammar, sets, cost);
    }
    let broken = first_breaking(alloc, grammar, &sets, cost);
    drop(sets);
    broken
}

/// The sets by the claims, in the form that the conditions need.
fn sets_of(alloc: Global, facts: ClaimedFacts) -> Result<Sets, AllocError>
    ensures { IfOk result (λ sets. sets ≡ record { nullable = facts.nullable.items; starts = facts.sets.starts.items; firsts = facts.sets.firsts.items; follows = facts.sets.follows.items; heads = []; ranks = [] }) }
{
    let ClaimedFacts {
        nullable,
        ranks: _,
        costs: _,
        sets,
    } = facts;
    let ClaimedSets {
        starts,
        firsts,
        follows,
        of_rules: _,
    } = sets;
    Sets::of(alloc, nullable, starts, firsts, follows)
}
