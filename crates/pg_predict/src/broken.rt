//! The first condition that given sets break, and where.
//!
//! The sets may come from anywhere and only have to be well formed. Whether they hold for a grammar is judged elsewhere.
ghost use Rattle.std.specs.Prelude.{◌≡◌, ◌<◌, [], length, string_bytes, IfOk};
ghost use Rattle.pg_predict.specs.Broken.{IsFirstBroken, broken_text, condition_text};
ghost use Rattle.pg_predict_conditions.specs.Conditions.{claimed_facts};
ghost use Rattle.pg_predict.specs.Findings.{name_text, name_of};
ghost use Rattle.pg_predict_conditions.specs.Shown.{AreWellFormed};

use crate::finds::first_noted;
use crate::places::place_of;
use crate::violation::Broken;
use pg_grammar_value::{Grammar, Rule};
use pg_predict_conditions::Judge;
use pg_sets::Sets;
use std::alloc::{AllocError, Global};

/// The first condition that is broken at a node by these sets and this step cost: no condition is broken at an earlier node, and none
/// with a smaller number at this one. None if nothing is broken.
///
/// The sets and the cost aren't checked, and no question asks whether a rule heads itself (C1).
pub fn first_broken(
    alloc: Global,
    grammar: &Grammar,
    sets: Sets,
    cost: u64,
) -> Result<Option<Broken>, AllocError>
    requires { AreWellFormed grammar.now sets }
    ensures { IfOk result (IsFirstBroken grammar.now (claimed_facts sets cost)) }
{
    let judge = Judge::by_claims(alloc, grammar, sets, cost)?;
    let broken = first_noted(&judge, grammar);
    drop(judge);
    Ok(broken)
}

/// Which condition is broken and where, as in `C2 rule:5`: the name of the rule whose body has the node, and the node's number in that body, in
/// preorder, from 1.
pub fn broken_text(alloc: Global, grammar: &Grammar, broken: &Broken) -> Result<String, AllocError>
    requires { broken.now.node < length grammar.now.nodes }
    ensures { IfOk result (λ text. string_bytes text ≡ broken_text grammar.now broken.now) }
{
    let count = grammar.nodes().len();
    prove!(broken.node.index() < count);
    let place = place_of(grammar.rules(), broken.node);
    text_at(
        alloc,
        grammar.rules(),
        place.rule,
        broken.condition,
        place.number,
    )
}

/// The text of a condition and a node of the rule with this number.
fn text_at(
    alloc: Global,
    rules: &[Rule],
    rule: usize,
    condition: u8,
    node: usize,
) -> Result<String, AllocError>
    ensures { IfOk result (λ text. string_bytes text ≡ condition_text condition (name_of rules.now rule) node) }
{
    match rules.get(rule) {
        Some(rule) => text_in_rule(alloc, rule, condition, node),
        None => text_in_none(alloc, condition, node),
    }
}

/// The text of a condition and a node of this rule.
fn text_in_rule(
    alloc: Global,
    rule: &Rule,
    condition: u8,
    node: usize,
) -> Result<String, AllocError>
    ensures { IfOk result (λ text. string_bytes text ≡ condition_text condition (name_text rule.now) node) }
{
    format!(in alloc; "C{} {}:{}", condition, rule.name, node)
}

/// The text of a condition and a node of a rule that doesn't exist.
fn text_in_none(alloc: Global, condition: u8, node: usize) -> Result<String, AllocError>
    ensures { IfOk result (λ text. string_bytes text ≡ condition_text condition [] node) }
{
    format!(in alloc; "C{} :{}", condition, node)
}
