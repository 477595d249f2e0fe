//! Left recursion (C1): rules that head themselves, in one step or more.
//!
//! Only a rule without a rank can head itself, since no chain of heads leads from any other to a cycle. So only the heads of such rules are followed.
ghost use Rattle.std.specs.Prelude.{◌≡◌, ◌<◌, ◌↔◌, ℕ, true, length, IfOk, OnOk};
ghost use Rattle.std.specs.Bool.{OnTrue};
ghost use Rattle.pg_grammar_value.specs.Grammar.{IsGrammar};
ghost use Rattle.pg_graph.specs.Graphs.{has, numbers_at, IsReached};
ghost use Rattle.pg_sets_nullable.specs.Ranks.{Chain};
ghost use Rattle.pg_sets.specs.Sets.{AreSets};
ghost use Rattle.pg_graph.specs.Walk.{is_new, with_all_met};
ghost use Rattle.pg_predict_conditions.specs.Conditions.{least_facts};
ghost use Rattle.pg_predict_conditions.specs.Shown.{MarksRecursive};

use pg_grammar_form::RuleId;
use pg_grammar_value::Grammar;
use pg_sets::Sets;
use std::alloc::{AllocError, Global};

/// For each node whether it is the body of a rule that heads itself.
pub(crate) fn recursive_bodies(
    alloc: Global,
    grammar: &Grammar,
    sets: &Sets,
) -> Result<Vec<bool>, AllocError>
    requires { AreSets grammar.now sets.now }
    ensures { IfOk result (λ marks. MarksRecursive grammar.now (least_facts grammar.now) marks.items) }
{
    let mut marks = vec![in alloc; false; grammar.nodes().len()]?;
    for (number, rule) in grammar.rules().iter().enumerate() {
        if heads_itself(alloc, grammar, sets, number)? {
            marks[rule.body.index()] = true;
        }
    }
    Ok(marks)
}

/// Whether a rule heads itself.
fn heads_itself(
    alloc: Global,
    grammar: &Grammar,
    sets: &Sets,
    rule: usize,
) -> Result<bool, AllocError>
    requires sets { AreSets grammar.now sets.now }
    requires rule { rule < length grammar.now.rules }
    ensures { IfOk result (λ heads. (heads ≡ true) ↔ Chain grammar.now rule rule) }
{
    if sets.rank(RuleId::new(rule)).is_some() {
        return Ok(false);
    }
    let count = grammar.rules().len();
    let met = reached(alloc, sets, count, sets.heads(RuleId::new(rule)))?;
    Ok(has(&met, rule))
}

/// The rules that chains of heads reach from these, with these themselves.
fn reached(
    alloc: Global,
    sets: &Sets,
    count: usize,
    roots: &[RuleId],
) -> Result<Vec<usize>, AllocError>
    requires { count ≡ length sets.now.heads }
    ensures { IfOk result (λ met. (v : ℕ) → (has met.items v ≡ true) ↔ IsReached sets.now.heads roots.now v) }
{
    let mut marks = vec![in alloc; false; count]?;
    let mut met = Vec::new(alloc);
    meet_all(roots, &mut marks, &mut met)?;
    let mut next = 0;
    while next < met.len() {
        let rule = RuleId::new(met[next]);
        meet_all(sets.heads(rule), &mut marks, &mut met)?;
        next += 1;
    }
    Ok(met)
}

/// Collects and marks those of the rules that have no mark yet.
fn meet_all(rules: &[RuleId], marks: &mut Vec<bool>, met: &mut Vec<usize>) -> Result<(), AllocError>
    ensures { OnOk result (record { marks = marks.new.items; met = met.new.items } ≡
        with_all_met rules.now (record { marks = marks.old.items; met = met.old.items })) }
{
    for rule in rules {
        if is_new(marks, rule.index()) {
            met.push(rule.index())?;
            marks[rule.index()] = true;
        }
    }
    Ok(())
}

/// Whether the rule exists and has no mark.
fn is_new(marks: &[bool], rule: usize) -> bool
    ensures same { result ≡ is_new marks.now rule }
    ensures rule { OnTrue result (rule < length marks.now) }
{
    rule < marks.len() && !marks[rule]
}

/// Whether a rule is among these.
fn has(rules: &[usize], rule: usize) -> bool
    ensures { result ≡ has rules.now rule }
{
    rules.iter().any(|other| *other == rule)
}
