//! The step cost of a grammar: its levels, times its greatest size.
ghost use Rattle.std.specs.Prelude.{◌≡◌, ℕ, IfOk, MatchOption};
ghost use Rattle.std.specs.Bool.{OnFalse, OnTrue};
ghost use Rattle.pg_grammar_value.specs.Grammar.{IsGrammar};
ghost use Rattle.pg_sets.specs.Sets.{AreSets};
ghost use Rattle.pg_predict_costs.specs.FoundCost.{HaveRanks, IsFoundCost, IsCostByCosts};
ghost use Rattle.pg_predict_costs.specs.Rounds.{AreCutCosts};
ghost use Rattle.pg_predict_costs.specs.StepCost.{leaf_levels, node_levels, grammar_levels, greatest_size, IsStepCost};
ghost use Rattle.pg_predict_costs.specs.Steps.{number_at, cut_off, row_steps};

use crate::costs::node_costs;
use crate::sizes::node_sizes;
use crate::totals::{number_at, row_steps};
use pg_grammar_form::{Form, Leaf, Node, RuleId, WordId};
use pg_grammar_value::Grammar;
use pg_sets::Sets;
use std::alloc::{AllocError, Global};

/// The step cost of the grammar, K(G), in turns of the machine's loop: a parse takes at most K(G) for each character of the text and K(G) for its end
/// (ours). 18,446,744,073,709,551,615 if it is greater; none if there is none, because a rule leads back to itself before anything is consumed. `sets` must
/// be the grammar's sets.
pub fn step_cost(alloc: Global, grammar: &Grammar, sets: &Sets) -> Result<Option<u64>, AllocError>
    requires { AreSets grammar.now sets.now }
    ensures { IfOk result (IsFoundCost grammar.now sets.now.nullable) }
{
    if !all_have_ranks(grammar, sets) {
        return Ok(None);
    }
    let costs = node_costs(alloc, grammar, sets)?;
    let cost = cost_by_costs(alloc, grammar, &costs)?;
    Ok(Some(cost))
}

/// What the step cost of the grammar would be if these were the costs of its nodes, which isn't checked (ours). 18,446,744,073,709,551,615 if it is greater.
pub fn cost_by_costs(alloc: Global, grammar: &Grammar, costs: &[u64]) -> Result<u64, AllocError>
    ensures { IfOk result (IsCostByCosts grammar.now costs.now) }
{
    let sizes = node_sizes(alloc, grammar, costs)?;
    let levels = grammar_levels(grammar);
    let greatest = greatest_size(grammar, &sizes);
    Ok(levels.saturating_mul(greatest))
}

/// For each node its cost, in turns of the machine's loop: the most that a run of it takes that consumes nothing (ours). 18,446,744,073,709,551,615
/// if it is greater. None if a rule leads back to itself before anything is consumed, because then no numbers are the costs. `sets` must be the
/// grammar's sets.
pub fn costs_of_nodes(
    alloc: Global,
    grammar: &Grammar,
    sets: &Sets,
) -> Result<Option<Vec<u64>>, AllocError>
    requires { AreSets grammar.now sets.now }
    ensures { IfOk result (λ found. MatchOption found
        ((k : ℕ) → IsStepCost grammar.now sets.now.nullable k → ⊥)
        (λ costs. AreCutCosts grammar.now sets.now.nullable costs.items)) }
{
    if all_have_ranks(grammar, sets) {
        Ok(Some(node_costs(alloc, grammar, sets)?))
    } else {
        Ok(None)
    }
}

/// Whether each rule has a rank. If one has none, the grammar has no step cost, and the rounds of costs would never end.
fn all_have_ranks(grammar: &Grammar, sets: &Sets) -> bool
    requires { AreSets grammar.now sets.now }
    ensures none { OnFalse result ((k : ℕ) → IsStepCost grammar.now sets.now.nullable k → ⊥) }
    ensures all { OnTrue result (HaveRanks grammar.now sets.now.ranks) }
    ensures grammar { IsGrammar grammar.now }
{
    // Called for its contract: the grammar is well formed.
    let _nodes = grammar.nodes();
    for rule in 0..grammar.rules().len() {
        if sets.rank(RuleId::new(rule)).is_none() {
            return false;
        }
    }
    true
}

/// The greatest size of a rule, and at least the steps of an expression's rows.
fn greatest_size(grammar: &Grammar, sizes: &[u64]) -> u64
    ensures { result ≡ greatest_size (number_at sizes.now) (cut_off (row_steps grammar.now)) grammar.now.rules }
{
    let mut greatest = row_steps(grammar);
    for rule in grammar.rules() {
        greatest = greatest.max(number_at(sizes, rule.body.index()));
    }
    greatest
}

/// How deep runs may be nested before anything is consumed.
fn grammar_levels(grammar: &Grammar) -> u64
    ensures { result ≡ cut_off (grammar_levels grammar.now) }
{
    let mut levels = (grammar.rules().len() as u64).saturating_add(1);
    for node in grammar.nodes() {
        levels = levels.saturating_add(node_levels(node));
    }
    levels
}

/// How many levels of nesting a node adds.
fn node_levels(node: &Node) -> u64
    ensures { result ≡ node_levels node.now }
{
    match node {
        Form::Leaf(leaf) => leaf_levels(leaf),
        Form::Many(_) => 1,
        Form::Chain(_, _, _, _) => 2,
        Form::Expression(_, _) => 30,
        Form::Seq(_) | Form::Choice(_) | Form::Rule(_) | Form::Around(_, _) => 0,
    }
}

/// How many levels of nesting a leaf adds.
fn leaf_levels(leaf: &Leaf<WordId>) -> u64
    ensures { result ≡ leaf_levels leaf.now }
{
    if leaf.is_declaration() { 4 } else { 0 }
}
