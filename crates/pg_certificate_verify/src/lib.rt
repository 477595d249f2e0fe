//! Whether a certificate shows that its grammar is accepted, whoever made it.
//!
//! The claims about rules determine facts about each node: whether it is nullable, which rank it requires, what it
//! costs (`nullable`, `rank`, `cost`), and which starts can begin it and follow it (`sets_by`, with `starts`, `origins` and `edges`). A claim
//! holds if it is no less than what the rule's body and uses require; a claim on starts holds if claimed starts cover the required
//! ones (`covering`, `closure`). All claims are judged in order (`verdict`, `verifying`), and then the conditions of accepted
//! grammars, by the claimed sets and cost (`verified`). `texts` has the printed form of the result. What claims that hold show is
//! a law (`laws`).
#![tactic(auto)]

mod alternatives;
mod breaking;
mod claims;
mod closure;
mod cost;
mod covering;
mod edges;
mod laws;
mod nullable;
mod operator_pairs;
mod origins;
mod pairs;
mod rank;
mod rounds;
mod sets_by;
mod starts;
mod texts;
mod verdict;
mod verified;
mod verify_fault;
mod verifying;

pub use closure::is_set_covered;
pub use cost::{costs_by_claims, holds_cost};
pub use covering::{are_covered, is_covered};
pub use laws::{
    claimed_costs_are_enough, claimed_ranks_fall, claimed_sets_are_enough,
    claimed_step_cost_is_enough, covered_starts_are_met, nullable_claims_are_enough,
};
pub use nullable::{holds_nullable, nullable_by_claims};
pub use rank::{holds_rank, ranks_by_claims};
pub use sets_by::{ClaimedSets, sets_by_claims};
pub use texts::fault_text;
pub use verdict::{ClaimedFacts, facts_by_claims, first_fault};
pub use verified::verify;
pub use verify_fault::{Condition, NotClosed, VerifyFault};
pub use verifying::verify_claims;
