//! The cost of a node from the costs of its parts.

use crate::forms::{body_of, form_at};
use crate::leaves::leaf_cost;
use crate::shortest::{Costs, Equations, NONE, Plain, sum};
use pg_grammar_form::{Form, NodeId};

/// The cost of the node, given the present costs of the others.
pub(crate) fn cost_at(
    equations: Equations<'_>,
    plain: Option<&Plain>,
    costs: &Costs,
    node: NodeId,
) -> u32 {
    let Some(form) = form_at(equations.grammar, node) else {
        return NONE;
    };
    match form {
        Form::Leaf(leaf) => leaf_cost(equations.sets, node, leaf, equations.front),
        Form::Seq(parts) => sum(1, joint_cost(plain, costs, parts.as_slice())),
        Form::Choice(parts) => sum(1, least_of(costs, parts.as_slice())),
        Form::Many(part) => match plain {
            Some(_) => sum(1, costs.at(*part)),
            None => 1,
        },
        Form::Chain(_, _, operand, separator) => {
            let parts = [*operand, *separator, *operand];
            let later = joint_cost(plain, costs, &parts);
            sum(1, costs.at(*operand).min(later))
        }
        Form::Expression(_, part) | Form::Around(_, part) => sum(1, costs.at(*part)),
        Form::Rule(rule) => match body_of(equations.grammar, *rule) {
            Some(body) => sum(1, costs.at(body)),
            None => NONE,
        },
    }
}

/// The cost of these parts one after another. With plain costs, one of them begins with a character and those before it are empty.
fn joint_cost(plain: Option<&Plain>, costs: &Costs, parts: &[NodeId]) -> u32 {
    match plain {
        Some(plain) => sequence_cost(plain, costs, parts),
        None => sum_of(costs, parts),
    }
}

/// The sum of the costs of these parts.
pub(crate) fn sum_of(costs: &Costs, parts: &[NodeId]) -> u32 {
    let mut all = 0;
    for part in parts {
        all = sum(all, costs.at(*part));
    }
    all
}

/// The least of the costs of these parts.
fn least_of(costs: &Costs, parts: &[NodeId]) -> u32 {
    let mut least = NONE;
    for part in parts {
        least = least.min(costs.at(*part));
    }
    least
}

/// The cost of a sequence in which one part begins with a character and those before it are empty.
pub(crate) fn sequence_cost(plain: &Plain, costs: &Costs, parts: &[NodeId]) -> u32 {
    let mut least = NONE;
    let mut after = 0;
    for part in parts.iter().rev() {
        let begun = sum(costs.at(*part), after);
        least = begun.min(sum(plain.nothing.at(*part), least));
        after = sum(after, plain.any.at(*part));
    }
    least
}

/// The index of the part that begins with a character, where the sequence costs least. Those before it are empty.
pub(crate) fn leader(plain: &Plain, costs: &Costs, parts: &[NodeId]) -> Option<usize> {
    let mut found = None;
    let mut least = NONE;
    let mut after = 0;
    for number in (0..parts.len()).rev() {
        let part = *parts.get(number)?;
        let begun = sum(costs.at(part), after);
        let passed = sum(plain.nothing.at(part), least);
        if begun < NONE && begun <= passed {
            found = Some(number);
        }
        least = begun.min(passed);
        after = sum(after, plain.any.at(part));
    }
    if least < NONE { found } else { None }
}

/// The index of the cheapest part, if one has a text.
pub(crate) fn cheapest(costs: &Costs, parts: &[NodeId]) -> Option<usize> {
    let least = least_of(costs, parts);
    if least >= NONE {
        return None;
    }
    for (number, part) in parts.iter().enumerate() {
        if costs.at(*part) <= least {
            return Some(number);
        }
    }
    None
}
