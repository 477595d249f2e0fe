//! How a rule leads back to itself before anything is consumed.

use crate::steps::Steps;
use pg_explain_context::{Known, body_place, rule_name, shortest_way};
use pg_grammar_form::RuleId;
use pg_graph::{Numbers, empty_lists, join};
use std::alloc::{AllocError, Global};

/// The rules of a shortest way from a rule to itself, in words. Each begins with the next one.
pub(crate) fn recursion(alloc: Global, known: &Known, rule: RuleId) -> Result<String, AllocError> {
    let way = way_back(alloc, known, rule)?;
    told_way(alloc, known, rule, &way)
}

/// The rule that this rule begins with and that leads back to it, if there is one.
pub(crate) fn next_head(
    alloc: Global,
    known: &Known,
    rule: usize,
) -> Result<Option<RuleId>, AllocError> {
    let way = way_back(alloc, known, RuleId::new(rule))?;
    match way.get(1) {
        Some(head) => Ok(Some(RuleId::new(*head))),
        None => Ok(None),
    }
}

/// A shortest way from a rule to itself through the rules that each begins with. At its beginning, the rule has the number of rules as its number.
fn way_back(alloc: Global, known: &Known, rule: RuleId) -> Result<Vec<usize>, AllocError> {
    let count = known.grammar.rules().len();
    let graph = headed(alloc, known, rule, count)?;
    let marks = vec![in alloc; true; graph.len()]?;
    let ends = only(alloc, count, rule.index())?;
    shortest_way(alloc, &graph, &marks, &ends, count)
}

/// For each rule, the rules that it begins with. A copy of this rule comes last, so that a way that begins there ends at the rule.
fn headed(
    alloc: Global,
    known: &Known,
    rule: RuleId,
    count: usize,
) -> Result<Vec<Numbers>, AllocError> {
    let mut graph = empty_lists(alloc, count.saturating_add(1))?;
    for number in 0..count {
        join_heads(known.sets.heads(RuleId::new(number)), number, &mut graph)?;
    }
    join_heads(known.sets.heads(rule), count, &mut graph)?;
    Ok(graph)
}

fn join_heads(heads: &[RuleId], number: usize, graph: &mut Vec<Numbers>) -> Result<(), AllocError> {
    for head in heads {
        join(graph, number, head.index())?;
    }
    Ok(())
}

/// Marks for `count` numbers, of which only this one is set.
fn only(alloc: Global, count: usize, number: usize) -> Result<Vec<bool>, AllocError> {
    let mut marks = Vec::new(alloc);
    for other in 0..count {
        marks.push(other == number)?;
    }
    Ok(marks)
}

/// The names of the rules on a way, the first rule first, and where their bodies stand.
fn told_way(
    alloc: Global,
    known: &Known,
    rule: RuleId,
    way: &[usize],
) -> Result<String, AllocError> {
    let mut steps = Steps::new(alloc);
    tell_rule(alloc, known, rule.index(), &mut steps)?;
    if let [_, after @ ..] = way {
        for number in after {
            tell_rule(alloc, known, *number, &mut steps)?;
        }
    }
    steps.text(alloc)
}

fn tell_rule(
    alloc: Global,
    known: &Known,
    rule: usize,
    steps: &mut Steps,
) -> Result<(), AllocError> {
    let name = rule_name(alloc, known, rule)?;
    steps.tell_at(alloc, known, name, body_place(known, rule))
}
