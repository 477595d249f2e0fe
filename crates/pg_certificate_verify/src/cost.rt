//! The costs of nodes by the claims.
//!
//! Costs stop at the greatest number of 64 bits, so a claim of that number always holds.

ghost use Rattle.std.specs.Prelude.{◌≡◌, ◌≤◌, ◌↔◌, length, IfOk, IsTrue};
ghost use Rattle.pg_predict_costs.specs.Steps.{number_at, cut_off, steps_of_all};
ghost use Rattle.pg_sets_nullable.specs.Parts.{up_to_unmarked};
ghost use Rattle.pg_certificate_verify.specs.Claimed.{claimed_cost};
ghost use Rattle.pg_certificate_verify.specs.Cost.{cost_by, AreCostsBy};

use crate::claims::claimed_cost;
use pg_certificate::{Certificate, RuleClaim};
use pg_grammar_form::{Form, Node, NodeId, RuleId};
use pg_grammar_value::{Grammar, Rule};
use pg_graph::is_marked;
use pg_predict_costs::{around_cost, leaf_steps, number_at, row_steps, steps_of_all};
use std::alloc::{AllocError, Global};

/// The cost of each node by the claims, from the marks of the nullable nodes.
pub fn costs_by_claims(
    alloc: Global,
    grammar: &Grammar,
    certificate: &Certificate,
    nullable: &[bool],
) -> Result<Vec<u64>, AllocError>
    ensures { IfOk result (λ costs. AreCostsBy grammar.now certificate.now nullable.now costs.items) }
{
    let mut costs = vec![in alloc; 0; grammar.nodes().len()]?;
    fill_costs(grammar, certificate.claims(), nullable, &mut costs);
    Ok(costs)
}

/// Fills in the cost of each node.
fn fill_costs(grammar: &Grammar, claims: &[RuleClaim], nullable: &[bool], costs: &mut [u64])
    requires { length costs.old ≡ length grammar.now.nodes }
    ensures { AreCostsBy grammar.now claims.now nullable.now costs.new }
{
    let nodes = grammar.nodes();
    for p in (0..nodes.len()).rev() {
        let cost = cost_of(grammar, claims, nullable, costs, &nodes[p]);
        costs[p] = cost;
    }
}

/// The cost of a node, from the costs of its parts.
fn cost_of(
    grammar: &Grammar,
    claims: &[RuleClaim],
    nullable: &[bool],
    costs: &[u64],
    node: &Node,
) -> u64
    ensures { result ≡ cut_off (cost_by grammar.now claims.now nullable.now (number_at costs.now) node.now) }
{
    match node {
        Form::Leaf(leaf) => leaf_steps(leaf),
        Form::Seq(parts) => steps_of_reached(nullable, costs, parts.as_slice()).saturating_add(2),
        Form::Choice(parts) => steps_of_all(costs, parts.as_slice()).saturating_add(2),
        Form::Many(part) => number_at(costs, part.index()).saturating_add(2),
        Form::Chain(_, _, operand, separator) => {
            steps_of_reached(nullable, costs, &[*operand, *separator, *operand]).saturating_add(2)
        }
        Form::Rule(rule) => claimed_cost(claims, *rule).saturating_add(2),
        Form::Expression(_, term) => row_steps(grammar)
            .saturating_add(number_at(costs, term.index()))
            .saturating_add(2),
        Form::Around(around, part) => around_cost(grammar, costs, around, *part),
    }
}

/// The sum of these nodes' steps, up to and with the first that isn't nullable.
fn steps_of_reached(nullable: &[bool], steps: &[u64], parts: &[NodeId]) -> u64
    ensures { result ≡ cut_off (steps_of_all (number_at steps.now) (up_to_unmarked nullable.now parts.now)) }
{
    let mut total: u64 = 0;
    for part in parts {
        total = total.saturating_add(number_at(steps, part.index()));
        if !is_marked(nullable, part.index()) {
            return total;
        }
    }
    total
}

/// Whether the claimed cost of the rule with this number holds: it is at least the cost of its body.
pub fn holds_cost(costs: &[u64], claims: &[RuleClaim], number: RuleId, rule: &Rule) -> bool
    ensures { IsTrue result ↔ (number_at costs.now rule.now.body ≤ claimed_cost claims.now number) }
{
    number_at(costs, rule.body.index()) <= claimed_cost(claims, number)
}
