//! The ranks of rules: the length of the longest chain of heads from each.
//!
//! Rules get their ranks in rounds: one more than the greatest rank of a rule's heads, until a round ranks none. Each rule that is
//! left heads another that is left, so a chain of heads leads from it to a cycle.
ghost use Rattle.std.specs.Prelude.{◌≡◌, ◌<◌, ℕ, Some, None, length, IfOk, MatchOption};
ghost use Rattle.std.specs.Bool.{OnTrue, OnFalse};
ghost use Rattle.pg_grammar_value.specs.Grammar.{IsGrammar};
ghost use Rattle.pg_graph.specs.Graphs.{numbers_at};
ghost use Rattle.pg_sets_nullable.specs.Ranking.{rank_above, unranked, AreSoFar};
ghost use Rattle.pg_sets_nullable.specs.Ranks.{rank_at, AreRanks};
ghost use Rattle.pg_sets_nullable.specs.Reached.{AreHeads};

use crate::rules::{Rules, rules_at};
use pg_grammar_form::RuleId;
use pg_grammar_value::Grammar;
use std::alloc::{AllocError, Global};

/// The rank of each rule, if it has one. `heads` must be the grammar's heads.
pub fn ranks_of_rules(
    alloc: Global,
    grammar: &Grammar,
    heads: &[Rules],
) -> Result<Vec<Option<u32>>, AllocError>
    requires grammar { IsGrammar grammar.now }
    requires heads { AreHeads grammar.now heads.now }
    ensures { IfOk result (λ ranks. AreRanks grammar.now ranks.items) }
{
    let mut ranks = vec![in alloc; None; grammar.rules().len()]?;
    while rank_round(grammar, heads, &mut ranks) {}
    Ok(ranks)
}

/// Ranks each rule whose heads all have a rank, and says whether it ranked any.
fn rank_round(grammar: &Grammar, heads: &[Rules], ranks: &mut [Option<u32>]) -> bool
    requires grammar { IsGrammar grammar.now }
    requires heads { AreHeads grammar.now heads.now }
    requires length { length ranks.old ≡ length grammar.now.rules }
    requires ranks { AreSoFar grammar.now ranks.old }
    ensures ranks { AreSoFar grammar.now ranks.new }
    ensures fewer { OnTrue result (unranked ranks.new < unranked ranks.old) }
    ensures settled { OnFalse result ((a : ℕ) → a < length grammar.now.rules → rank_at ranks.new a ≡ None →
        rank_above ranks.new 0 (numbers_at heads.now a) ≡ None) }
{
    let mut grew = false;
    for rule in 0..grammar.rules().len() {
        if let Some(rank) = new_rank(heads, ranks, rule) {
            ranks[rule] = Some(rank);
            grew = true;
        }
    }
    grew
}

/// The rank of a rule that has none yet; none if one of its heads has no rank.
fn new_rank(heads: &[Rules], ranks: &[Option<u32>], rule: usize) -> Option<u32>
    requires { (a r : ℕ) → rank_at ranks.now a ≡ Some r → r < 512 }
    ensures { MatchOption result
        (rank_at ranks.now rule ≡ None → rank_above ranks.now 0 (numbers_at heads.now rule) ≡ None)
        (λ rank. (rank_at ranks.now rule ≡ None) × (rank_above ranks.now 0 (numbers_at heads.now rule) ≡ Some rank)) }
{
    match rank_at(ranks, RuleId::new(rule)) {
        Some(_) => None,
        None => rank_above(rules_at(heads, rule), ranks),
    }
}

/// One more than the greatest rank of these rules; 0 if there are none, and none if one of them has no rank.
fn rank_above(rules: &[RuleId], ranks: &[Option<u32>]) -> Option<u32>
    requires { (a r : ℕ) → rank_at ranks.now a ≡ Some r → r < 512 }
    ensures { result ≡ rank_above ranks.now 0 rules.now }
{
    let mut above = 0;
    for rule in rules {
        match rank_at(ranks, *rule) {
            Some(rank) => above = above.max(rank + 1),
            None => return None,
        }
    }
    Some(above)
}

/// The rank of a rule; none for a rule that isn't there.
pub fn rank_at(ranks: &[Option<u32>], rule: RuleId) -> Option<u32>
    ensures { result ≡ rank_at ranks.now rule }
{
    match ranks.get(rule.index()) {
        Some(rank) => *rank,
        None => None,
    }
}
