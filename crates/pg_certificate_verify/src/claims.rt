//! The claims about a rule, by its number.

ghost use Rattle.std.specs.Prelude.{◌≡◌};
ghost use Rattle.pg_certificate_verify.specs.Claimed.{claimed_nullable, claimed_rank, claimed_cost, claimed_first, claimed_follow};

use pg_certificate::{ClaimedStart, RuleClaim};
use pg_grammar_form::RuleId;

/// Whether the rule is claimed to be nullable; false if it has no claim.
pub fn claimed_nullable(claims: &[RuleClaim], rule: RuleId) -> bool
    ensures { result ≡ claimed_nullable claims.now rule }
{
    match claims.get(rule.index()) {
        Some(claim) => claim.nullable,
        None => false,
    }
}

/// The claimed rank of the rule; 0 if it has no claim.
pub fn claimed_rank(claims: &[RuleClaim], rule: RuleId) -> u32
    ensures { result ≡ claimed_rank claims.now rule }
{
    match claims.get(rule.index()) {
        Some(claim) => claim.rank,
        None => 0,
    }
}

/// The claimed cost of the rule's body; 0 if it has no claim.
pub fn claimed_cost(claims: &[RuleClaim], rule: RuleId) -> u64
    ensures { result ≡ claimed_cost claims.now rule }
{
    match claims.get(rule.index()) {
        Some(claim) => claim.cost,
        None => 0,
    }
}

/// The claimed first starts of the rule; none if it has no claim.
pub fn claimed_first(claims: &[RuleClaim], rule: usize) -> &[ClaimedStart]
    ensures { result.now ≡ claimed_first claims.now rule }
{
    match claims.get(rule) {
        Some(claim) => claim.first.as_slice(),
        None => &[],
    }
}

/// The claimed follow starts of the rule; none if it has no claim.
pub fn claimed_follow(claims: &[RuleClaim], rule: usize) -> &[ClaimedStart]
    ensures { result.now ≡ claimed_follow claims.now rule }
{
    match claims.get(rule) {
        Some(claim) => claim.follow.as_slice(),
        None => &[],
    }
}
