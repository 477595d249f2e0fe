//! The sizes of nodes.
//!
//! A node's parts stand after it, so one pass from the last node to the first computes each part before the node around it.
ghost use Rattle.std.specs.Prelude.{◌≡◌, ◌+◌, length, IfOk};
ghost use Rattle.pg_predict_costs.specs.Rounds.{AreCutSizes};
ghost use Rattle.pg_predict_costs.specs.StepCost.{own_steps};
ghost use Rattle.pg_predict_costs.specs.Steps.{number_at, cut_off, steps_of_all};
ghost use Rattle.pg_grammar_form.specs.Forms.{parts_of};

use crate::totals::{body_steps, leaf_steps, number_at, row_steps, steps_of_all};
use pg_grammar_form::{Form, Node};
use pg_grammar_value::Grammar;
use std::alloc::{AllocError, Global};

/// The size of each node, from the costs of nodes.
pub(crate) fn node_sizes(
    alloc: Global,
    grammar: &Grammar,
    costs: &[u64],
) -> Result<Vec<u64>, AllocError>
    ensures { IfOk result (λ sizes. AreCutSizes grammar.now costs.now sizes.items) }
{
    let mut sizes = vec![in alloc; 0; grammar.nodes().len()]?;
    fill_sizes(grammar, costs, &mut sizes);
    Ok(sizes)
}

/// Fills in the size of each node.
fn fill_sizes(grammar: &Grammar, costs: &[u64], sizes: &mut [u64])
    requires { length sizes.old ≡ length grammar.now.nodes }
    ensures { AreCutSizes grammar.now costs.now sizes.new }
{
    let nodes = grammar.nodes();
    for p in (0..nodes.len()).rev() {
        let size = node_size(grammar, costs, sizes, &nodes[p]);
        sizes[p] = size;
    }
}

/// The size of a node, from the sizes of its parts.
fn node_size(grammar: &Grammar, costs: &[u64], sizes: &[u64], node: &Node) -> u64
    ensures { result ≡ cut_off (own_steps grammar.now (number_at costs.now) node.now + steps_of_all (number_at sizes.now) (parts_of node.now)) }
{
    match node {
        Form::Leaf(leaf) => leaf_steps(leaf),
        Form::Seq(parts) | Form::Choice(parts) => {
            steps_of_all(sizes, parts.as_slice()).saturating_add(2)
        }
        Form::Many(part) | Form::Around(_, part) => number_at(sizes, part.index()).saturating_add(
            2,
        ),
        Form::Chain(_, _, operand, separator) => {
            steps_of_all(sizes, &[*operand, *separator]).saturating_add(2)
        }
        Form::Rule(rule) => body_steps(grammar, costs, *rule).saturating_add(2),
        Form::Expression(_, term) => row_steps(grammar)
            .saturating_add(number_at(costs, term.index()))
            .saturating_add(2)
            .saturating_add(number_at(sizes, term.index())),
    }
}
