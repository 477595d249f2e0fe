//! Whether all claims hold, and which fails first.
//!
//! Rules are judged in file order, and the conditions of each rule in turn, each by one test.

ghost use Rattle.std.specs.Prelude.{◌≡◌, ◌<◌, ◌↔◌, length, IfOk, IsTrue};
ghost use Rattle.pg_graph_bits.specs.Numbers.{set_at};
ghost use Rattle.pg_certificate_verify.specs.Closed.{IsFirstClosed, IsFollowClosed};
ghost use Rattle.pg_certificate_verify.specs.Judged.{said_by, IsSaid, IsFirstFailing, IsJudged};
ghost use Rattle.pg_certificate_verify.specs.Lists.{lists_of};
ghost use Rattle.pg_certificate_verify.specs.SetsBy.{AreSetsBy};

use crate::closure::is_set_covered;
use crate::cost::{costs_by_claims, holds_cost};
use crate::edges::{BEHIND, FIRST, FOLLOW};
use crate::nullable::{holds_nullable, nullable_by_claims};
use crate::rank::{holds_rank, ranks_by_claims};
use crate::sets_by::{ClaimedSets, sets_by_claims};
use crate::verify_fault::{Condition, NotClosed};
use pg_certificate::{Certificate, RuleClaim};
use pg_grammar_form::RuleId;
use pg_grammar_value::{Grammar, Rule};
use pg_graph_bits::BitSet;
use std::alloc::{AllocError, Global};

/// Facts about nodes by the claims.
#[derive(Drop)]
pub struct ClaimedFacts {
    /// For each node whether it is nullable.
    pub nullable: Vec<bool>,
    /// The rank that each node requires.
    pub ranks: Vec<u64>,
    /// For each node its cost.
    pub costs: Vec<u64>,
    /// The first and the follow sets, and those of rules.
    pub sets: ClaimedSets,
}

/// The facts about nodes by the claims, whether these hold or not.
pub fn facts_by_claims(
    alloc: Global,
    grammar: &Grammar,
    certificate: &Certificate,
) -> Result<ClaimedFacts, AllocError>
    ensures said { IfOk result (λ facts. IsSaid grammar.now certificate.now (said_by facts)) }
    ensures sets { IfOk result (λ facts. AreSetsBy grammar.now certificate.now facts.nullable.items (lists_of facts.sets)) }
{
    let nullable = nullable_by_claims(alloc, grammar, certificate)?;
    let ranks = ranks_by_claims(alloc, grammar, certificate, nullable.as_slice())?;
    let costs = costs_by_claims(alloc, grammar, certificate, nullable.as_slice())?;
    let sets = sets_by_claims(alloc, grammar, certificate, nullable.as_slice())?;
    Ok(ClaimedFacts {
        nullable,
        ranks,
        costs,
        sets,
    })
}

/// The first claim that fails, or none: rules in file order, and for each rule nullable, first, follow, rank and cost. The facts
/// must be those of the claims. It allocates no memory.
#[tactic(auto, using(crate::proofs::Judging::one_rule_more, crate::proofs::Judging::all_judged))]
pub fn first_fault(
    grammar: &Grammar,
    certificate: &Certificate,
    facts: &ClaimedFacts,
) -> Option<NotClosed>
    requires { AreSetsBy grammar.now certificate.now facts.now.nullable.items (lists_of facts.now.sets) }
    ensures { IsJudged grammar.now certificate.now (said_by facts.now) result }
{
    let rules = grammar.rules();
    for number in 0..rules.len() {
        if let Some(condition) = first_failing(
            grammar,
            certificate.claims(),
            facts,
            number,
            &rules[number],
        ) {
            let rule = RuleId::new(number);
            return Some(NotClosed { rule, condition });
        }
    }
    None
}

/// The first condition of a rule that fails, or none.
#[tactic(auto, using(crate::proofs::Judging::nullable_fails, crate::proofs::Judging::first_fails))]
fn first_failing(
    grammar: &Grammar,
    claims: &[RuleClaim],
    facts: &ClaimedFacts,
    number: usize,
    rule: &Rule,
) -> Option<Condition>
    requires sets { AreSetsBy grammar.now claims.now facts.now.nullable.items (lists_of facts.now.sets) }
    requires number { number < length grammar.now.rules }
    requires body { rule.now.body < length grammar.now.nodes }
    ensures { IsFirstFailing grammar.now claims.now (said_by facts.now) number rule.now result }
{
    let id = RuleId::new(number);
    if !holds_nullable(&facts.nullable, claims, id, rule) {
        return Some(Condition::Nullable);
    }
    if !is_first_closed(grammar, claims, &facts.nullable, &facts.sets, number, rule) {
        return Some(Condition::First);
    }
    if !is_follow_closed(grammar, claims, &facts.nullable, &facts.sets, number) {
        return Some(Condition::Follow);
    }
    if !holds_rank(&facts.ranks, claims, id, rule) {
        return Some(Condition::Rank);
    }
    if !holds_cost(&facts.costs, claims, id, rule) {
        return Some(Condition::Cost);
    }
    None
}

/// Whether each start that can begin the rule's body is covered by a claimed first start.
fn is_first_closed(
    grammar: &Grammar,
    claims: &[RuleClaim],
    nullable: &[bool],
    sets: &ClaimedSets,
    number: usize,
    rule: &Rule,
) -> bool
    requires sets { AreSetsBy grammar.now claims.now nullable.now (lists_of sets.now) }
    requires number { number < length grammar.now.rules }
    requires body { rule.now.body < length grammar.now.nodes }
    ensures { IsTrue result ↔ IsFirstClosed grammar.now claims.now nullable.now number rule.now }
{
    let rules = grammar.rules().len();
    let claimed = set_at(sets.of_rules.as_slice(), 1 + FIRST * rules + number);
    let first = set_at(sets.firsts.as_slice(), rule.body.index());
    is_set_covered(sets.starts.as_slice(), claimed, first)
}

/// Whether each start that stands behind a use of the rule is covered by a claimed follow start.
fn is_follow_closed(
    grammar: &Grammar,
    claims: &[RuleClaim],
    nullable: &[bool],
    sets: &ClaimedSets,
    number: usize,
) -> bool
    requires sets { AreSetsBy grammar.now claims.now nullable.now (lists_of sets.now) }
    requires number { number < length grammar.now.rules }
    ensures { IsTrue result ↔ IsFollowClosed grammar.now claims.now nullable.now number }
{
    let rules = grammar.rules().len();
    let claimed = set_at(sets.of_rules.as_slice(), 1 + FOLLOW * rules + number);
    let behind = set_at(sets.of_rules.as_slice(), 1 + BEHIND * rules + number);
    is_set_covered(sets.starts.as_slice(), claimed, behind)
}

/// One of some sets.
fn set_at(sets: &[BitSet], set: usize) -> &BitSet
    requires { set < length sets.now }
    ensures { result.now ≡ set_at sets.now set }
{
    &sets[set]
}
