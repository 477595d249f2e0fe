//! The claims about the rules, one by one.

ghost use Rattle.std.specs.Prelude.{◌≡◌, ◌<◌, ℕ, None, length, IfOk, MatchOption};
ghost use Rattle.pg_predict_costs.specs.Steps.{number_at};
ghost use Rattle.pg_sets_nullable.specs.Ranks.{rank_at};
ghost use Rattle.pg_certificate_own.specs.Least.{least_claim, AreLeast};

use crate::starts::{claimed_starts, copied};
use pg_certificate::{Certificate, RuleClaim};
use pg_grammar_form::{NodeId, RuleId};
use pg_grammar_value::{Grammar, Rule};
use pg_sets::Sets;
use std::alloc::{AllocError, Global};

/// The certificate whose claims about each rule are exactly these sets' contents, and the cost of its body; none if a rule has no rank. The certificate is
/// the grammar's if these are the sets of the grammar and the costs of its nodes.
pub fn least_certificate(
    alloc: Global,
    grammar: &Grammar,
    sets: &Sets,
    costs: &[u64],
) -> Result<Option<Certificate>, AllocError>
    ensures { IfOk result (λ found. MatchOption found
        ((rule : ℕ) × (rule < length grammar.now.rules) × (rank_at sets.now.ranks rule ≡ None))
        (λ certificate. AreLeast grammar.now sets.now costs.now 0 grammar.now.rules certificate)) }
{
    let rules = grammar.rules();
    let mut certificate = Certificate::new(alloc);
    for rule in 0..rules.len() {
        match sets.rank(RuleId::new(rule)) {
            Some(rank) => {
                certificate.push(claim_of(alloc, grammar, sets, costs, rank, &rules[rule])?)?
            }
            None => return Ok(None),
        }
    }
    Ok(Some(certificate))
}

/// The claims about a rule of this rank.
fn claim_of(
    alloc: Global,
    grammar: &Grammar,
    sets: &Sets,
    costs: &[u64],
    rank: u32,
    rule: &Rule,
) -> Result<RuleClaim, AllocError>
    ensures { IfOk result (λ claim. claim ≡ least_claim grammar.now sets.now costs.now rank rule.now) }
{
    let nullable = sets.nullable(rule.body);
    let cost = number_at(costs, rule.body);
    let name = copied(alloc, rule.name.as_slice())?;
    let first = claimed_starts(alloc, grammar, sets.starts(), sets.first(rule.body))?;
    let follow = claimed_starts(alloc, grammar, sets.starts(), sets.follow(rule.body))?;
    Ok(RuleClaim {
        rule: name,
        nullable,
        rank,
        cost,
        first,
        follow,
    })
}

/// The number of a node; 0 if it has none.
fn number_at(numbers: &[u64], node: NodeId) -> u64
    ensures { result ≡ number_at numbers.now node }
{
    match numbers.get(node.index()) {
        Some(number) => *number,
        None => 0,
    }
}
