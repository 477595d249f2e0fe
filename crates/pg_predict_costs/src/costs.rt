//! The costs of nodes.
//!
//! Each number starts at 0 and grows, in rounds over all nodes, while the numbers of other nodes demand more. A node's
//! parts stand after it, so a round goes from the last node to the first, and only the heads of rules need more rounds.
ghost use Rattle.std.specs.Prelude.{◌≡◌, ◌<◌, ℕ, length, IfOk};
ghost use Rattle.std.specs.Bool.{OnTrue, OnFalse};
ghost use Rattle.pg_predict_costs.specs.Costs.{is_string, is_not_followed_by, is_at, are_ended_string, is_ended_string, tries_ended_string, around_cost, node_cost};
ghost use Rattle.pg_predict_costs.specs.Rounds.{AreLow, IsSettled, AreCutCosts, room};
ghost use Rattle.pg_predict_costs.specs.Steps.{number_at, cut_off};

use crate::totals::{body_steps, leaf_steps, number_at, row_steps, steps_of_all, steps_of_reached};
use pg_grammar_form::{Around, Form, Leaf, Node, NodeId};
use pg_grammar_value::Grammar;
use pg_sets::Sets;
use std::alloc::{AllocError, Global};

/// The cost of each node.
pub(crate) fn node_costs(
    alloc: Global,
    grammar: &Grammar,
    sets: &Sets,
) -> Result<Vec<u64>, AllocError>
    ensures { IfOk result (λ costs. AreCutCosts grammar.now sets.now.nullable costs.items) }
{
    let mut costs = vec![in alloc; 0; grammar.nodes().len()]?;
    while cost_round(grammar, sets, &mut costs) {}
    Ok(costs)
}

/// Raises the number of each node to what the other numbers demand, and says whether it raised any.
fn cost_round(grammar: &Grammar, sets: &Sets, costs: &mut [u64]) -> bool
    requires length { length costs.old ≡ length grammar.now.nodes }
    requires low { AreLow grammar.now sets.now.nullable costs.old }
    ensures low { AreLow grammar.now sets.now.nullable costs.new }
    ensures room { OnTrue result (room costs.new < room costs.old) }
    ensures settled { OnFalse result ((p : ℕ) → IsSettled grammar.now sets.now.nullable costs.new p) }
{
    let nodes = grammar.nodes();
    let mut grew = false;
    for p in (0..nodes.len()).rev() {
        let cost = node_cost(grammar, sets, costs, &nodes[p]);
        let so_far = number_at(costs, p);
        if cost > so_far {
            costs[p] = cost;
            grew = true;
        }
    }
    grew
}

/// The cost of a node, from the costs of other nodes.
fn node_cost(grammar: &Grammar, sets: &Sets, costs: &[u64], node: &Node) -> u64
    ensures { result ≡ cut_off (node_cost grammar.now sets.now.nullable (number_at costs.now) node.now) }
{
    match node {
        Form::Leaf(leaf) => leaf_steps(leaf),
        Form::Seq(parts) => steps_of_reached(costs, sets, parts.as_slice()).saturating_add(2),
        Form::Choice(parts) => steps_of_all(costs, parts.as_slice()).saturating_add(2),
        Form::Many(part) => number_at(costs, part.index()).saturating_add(2),
        Form::Chain(_, _, operand, separator) => {
            steps_of_reached(costs, sets, &[*operand, *separator, *operand]).saturating_add(2)
        }
        Form::Rule(rule) => body_steps(grammar, costs, *rule).saturating_add(2),
        Form::Expression(_, term) => row_steps(grammar)
            .saturating_add(number_at(costs, term.index()))
            .saturating_add(2),
        Form::Around(around, part) => around_cost(grammar, costs, around, *part),
    }
}

/// The cost of a form around a part, from the costs of other nodes.
pub fn around_cost(grammar: &Grammar, costs: &[u64], around: &Around, part: NodeId) -> u64
    ensures { result ≡ cut_off (around_cost grammar.now (number_at costs.now) around.now part) }
{
    if tries_ended_string(grammar.nodes(), around, part) {
        8
    } else {
        number_at(costs, part.index()).saturating_add(2)
    }
}

/// Whether this is a `try` around a string that a class doesn't follow.
fn tries_ended_string(nodes: &[Node], around: &Around, part: NodeId) -> bool
    ensures { result ≡ tries_ended_string nodes.now around.now part }
{
    around.is_try() && is_ended_string_at(nodes, part)
}

/// Whether a string that a class doesn't follow stands at the node.
fn is_ended_string_at(nodes: &[Node], node: NodeId) -> bool
    ensures { result ≡ is_at (is_ended_string nodes.now) nodes.now node }
{
    match nodes.get(node.index()) {
        Some(node) => is_ended_string(nodes, node),
        None => false,
    }
}

/// Whether a node is a sequence of a string and a class that doesn't follow it.
fn is_ended_string(nodes: &[Node], node: &Node) -> bool
    ensures { result ≡ is_ended_string nodes.now node.now }
{
    match node.sequence() {
        Some(parts) => are_ended_string(nodes, parts.as_slice()),
        None => false,
    }
}

/// Whether these parts are a string and a class that doesn't follow it.
fn are_ended_string(nodes: &[Node], parts: &[NodeId]) -> bool
    ensures { result ≡ are_ended_string nodes.now parts.now }
{
    match parts {
        [first, second] => is_string_at(nodes, *first) && is_not_followed_by_at(nodes, *second),
        _ => false,
    }
}

/// Whether a string stands at the node.
fn is_string_at(nodes: &[Node], node: NodeId) -> bool
    ensures { result ≡ is_at is_string nodes.now node }
{
    match nodes.get(node.index()) {
        Some(Form::Leaf(Leaf::String(_))) => true,
        Some(_) | None => false,
    }
}

/// Whether a class that must not follow stands at the node.
fn is_not_followed_by_at(nodes: &[Node], node: NodeId) -> bool
    ensures { result ≡ is_at is_not_followed_by nodes.now node }
{
    match nodes.get(node.index()) {
        Some(Form::Leaf(Leaf::NotFollowedBy(_))) => true,
        Some(_) | None => false,
    }
}
