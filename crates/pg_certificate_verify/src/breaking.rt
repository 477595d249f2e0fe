//! The first condition that claims break, found by comparing only starts that a condition names.
//!
//! It answers as `pg_predict::first_broken`, which keeps for each two starts whether they meet. No such table is made here, so memory
//! is what the sets take, however many starts are claimed.

ghost use Rattle.std.specs.Prelude.{◌≡◌, ◌↔◌, ◌<◌, Some, slice_get, length, IfOk, IsTrue};
ghost use Rattle.pg_grammar_value.specs.Grammar.{IsGrammar};
ghost use Rattle.pg_predict.specs.Broken.{IsFirstBroken};
ghost use Rattle.pg_predict_conditions.specs.Conditions.{claimed_facts};
ghost use Rattle.pg_predict_conditions.specs.Shown.{AreWellFormed, IsOver};
ghost use Rattle.pg_sets_own.specs.OperatorStarts.{AreOperatorStarts};
ghost use Rattle.pg_certificate_verify.specs.Breaking.{HasParts, IsFirstAt};

use crate::alternatives::{alternative_meets_follow, alternatives_meet, has_empty_alternative};
use crate::operator_pairs::{gap_breaks, operand_breaks, operator_meets_follow};
use crate::rounds::{has_empty_round, round_meets_follow};
use pg_grammar_form::{Node, NodeId};
use pg_grammar_value::Grammar;
use pg_predict::Broken;
use pg_sets::Sets;
use pg_sets_own::{OperatorStarts, operator_starts};
use std::alloc::{AllocError, Global};

/// The greatest step cost of a grammar that is accepted.
const COST_LIMIT: u64 = 4_294_967_296;

/// What the conditions of a grammar's nodes are judged by.
#[derive(Clone, Copy)]
struct Claims<'a> {
    grammar: &'a Grammar,
    sets: &'a Sets,
    /// The starts of the grammar's operators, if it has operators.
    operators: &'a Option<OperatorStarts>,
    cost: u64,
}

/// The first condition that is broken at a node by these sets and this step cost, or none.
pub(crate) fn first_breaking(
    alloc: Global,
    grammar: &Grammar,
    sets: &Sets,
    cost: u64,
) -> Result<Option<Broken>, AllocError>
    requires { AreWellFormed grammar.now sets.now }
    ensures { IfOk result (IsFirstBroken grammar.now (claimed_facts sets.now cost)) }
{
    let operators = operator_starts(alloc, grammar)?;
    let claims = Claims {
        grammar,
        sets,
        operators: &operators,
        cost,
    };
    let broken = first_node(alloc, &claims);
    drop(operators);
    broken
}

/// The first node at which a condition is broken by the claims, with the condition, or none.
fn first_node(alloc: Global, claims: &Claims<'_>) -> Result<Option<Broken>, AllocError>
    requires formed { AreWellFormed claims.now.grammar.now claims.now.sets.now }
    requires operators { AreOperatorStarts claims.now.grammar.now claims.now.operators.now }
    ensures { IfOk result (IsFirstBroken claims.now.grammar.now (claimed_facts claims.now.sets.now claims.now.cost)) }
{
    let nodes = claims.grammar.nodes();
    for number in 0..nodes.len() {
        let node = NodeId::new(number);
        match first_condition(alloc, claims, node, &nodes[number])? {
            Some(condition) => return Ok(Some(Broken { node, condition })),
            None => {}
        }
    }
    Ok(None)
}

/// The number of the first condition that is broken at this node, or none.
fn first_condition(
    alloc: Global,
    claims: &Claims<'_>,
    node: NodeId,
    form: &Node,
) -> Result<Option<u8>, AllocError>
    requires formed { AreWellFormed claims.now.grammar.now claims.now.sets.now }
    requires operators { AreOperatorStarts claims.now.grammar.now claims.now.operators.now }
    requires there { slice_get claims.now.grammar.now.nodes node ≡ Some form.now }
    requires parts { HasParts claims.now.sets.now form.now }
    ensures { IfOk result (λ found. IsFirstAt claims.now.grammar.now (claimed_facts claims.now.sets.now claims.now.cost) node found) }
{
    let Claims {
        grammar,
        sets,
        operators,
        cost,
    } = *claims;
    if has_empty_round(sets, form) {
        return Ok(Some(2));
    }
    if has_empty_alternative(sets, form) {
        return Ok(Some(3));
    }
    let two_meet = alternatives_meet(alloc, sets, form)?;
    if two_meet {
        return Ok(Some(4));
    }
    if alternative_meets_follow(sets, node, form) {
        return Ok(Some(5));
    }
    let round_meets = round_meets_follow(alloc, sets, node, form)?;
    if round_meets {
        return Ok(Some(6));
    }
    if operand_breaks(sets, operators, form) {
        return Ok(Some(7));
    }
    if operator_meets_follow(sets, operators, node, form) {
        return Ok(Some(8));
    }
    if gap_breaks(sets, operators, node, form) {
        return Ok(Some(9));
    }
    if is_over(grammar, cost, node) {
        return Ok(Some(11));
    }
    Ok(None)
}

/// Whether the node is the body of the start rule, and the step cost is above the limit (C11).
fn is_over(grammar: &Grammar, cost: u64, node: NodeId) -> bool
    ensures { IsTrue result ↔ IsOver grammar.now (Some cost) node }
{
    if cost <= COST_LIMIT {
        return false;
    }
    let start = grammar.start_rule().index();
    grammar.rules()[start].body == node
}
