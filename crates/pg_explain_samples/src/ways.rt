//! Ways from the start rule down to a node.
//!
//! Something may have to follow the node. Then the node waits for it, and so does each node above it, up to one that has a part further on which can begin
//! that way. Parts on the way there are empty.

use crate::basis::Basis;
use crate::forms::{around, body_of, form_at};
use crate::leading::{sequence_cost, sum_of};
use crate::shortest::{Costs, NONE, sum};
use pg_grammar_form::{Form, Node, NodeId};
use pg_graph::numbers_at;
use std::alloc::{AllocError, Global};

/// A node of a way.
#[derive(Clone, Copy)]
pub struct Step {
    /// The number of the node.
    pub(crate) node: usize,
    /// Whether what has to follow is still to come after this node.
    pub(crate) waits: bool,
}

/// The number of a step: there are two steps for each node.
fn number_of(step: Step) -> usize {
    let node = step.node.saturating_mul(2);
    if step.waits {
        node.saturating_add(1)
    } else {
        node
    }
}

/// What to seek a way for.
#[derive(Clone, Copy)]
pub struct Search<'g> {
    /// The grammar, with what its texts cost.
    pub basis: &'g Basis<'g>,
    /// The costs of texts that begin with what has to follow; `None` if anything may.
    pub follow: Option<&'g Costs>,
    /// Whether what comes after the way may have no text.
    pub cut: bool,
}

/// A shortest way down to the node, beginning with the body of the start rule; `None` if no way leads there. Fails where memory runs out.
pub fn way_to(
    alloc: Global,
    search: Search<'_>,
    node: NodeId,
) -> Result<Option<Vec<Step>>, AllocError> {
    let first = Step {
        node: node.index(),
        waits: search.follow.is_some(),
    };
    let mut rise = Rise::from(alloc, search.basis.grammar.nodes().len(), first)?;
    Ok(match rise.top(search) {
        Some(top) => Some(rise.way_down(alloc, top)?),
        None => None,
    })
}

/// The steps met on the way up from a node.
#[derive(Drop)]
struct Rise {
    /// For each step met, by its number, the step below it. The first step is below itself.
    below: Vec<Option<Step>>,
    /// The steps met, in order, at the front of the list,
    met: Vec<Step>,
    /// and their count.
    count: usize,
}

impl Rise {
    /// The first step was met; the grammar has `nodes` nodes.
    fn from(alloc: Global, nodes: usize, first: Step) -> Result<Rise, AllocError> {
        let steps = nodes.saturating_mul(2);
        let below = vec![in alloc; None; steps]?;
        let met = vec![in alloc; first; steps]?;
        let mut rise = Rise {
            below,
            met,
            count: 0,
        };
        rise.meet(first, first);
        Ok(rise)
    }

    /// The step at the body of the start rule, if it is met.
    fn top(&mut self, search: Search<'_>) -> Option<Step> {
        let grammar = search.basis.grammar;
        let top = body_of(grammar, grammar.start_rule())?.index();
        for next in 0..self.met.len() {
            if next >= self.count {
                return None;
            }
            let step = self.met.get(next).copied()?;
            if step.node == top && !step.waits {
                return Some(step);
            }
            self.go_up(search, step);
        }
        None
    }

    /// Meets the steps directly above one.
    fn go_up(&mut self, search: Search<'_>, step: Step) {
        for number in numbers_at(&search.basis.above, step.node) {
            self.go_up_to(search, *number, step);
        }
    }

    /// Meets the steps at a node directly above one.
    fn go_up_to(&mut self, search: Search<'_>, node: usize, step: Step) {
        let Some(form) = form_at(search.basis.grammar, NodeId::new(node)) else {
            return;
        };
        let waits = step.waits;
        if waits && ends_wait(search, form, NodeId::new(step.node)) {
            self.meet(Step { node, waits: false }, step);
        }
        if passes(search, form, step) {
            self.meet(Step { node, waits }, step);
        }
    }

    /// Meets a step above another, unless it was met before.
    fn meet(&mut self, above: Step, below: Step) {
        let number = number_of(above);
        if number < self.below.len()
            && self.below[number].is_none()
            && self.count < self.met.len()
        {
            self.below[number] = Some(below);
            self.met[self.count] = above;
            self.count = self.count.saturating_add(1);
        }
    }

    /// The way from a step down to the first one met.
    fn way_down(&self, alloc: Global, top: Step) -> Result<Vec<Step>, AllocError> {
        let mut way = Vec::new(alloc);
        way.push(top)?;
        let mut number = number_of(top);
        for _ in 0..self.count {
            let Some(next) = self.below(number) else {
                break;
            };
            way.push(next)?;
            number = number_of(next);
        }
        Ok(way)
    }

    /// The step below the one with this number, unless that is the first.
    fn below(&self, number: usize) -> Option<Step> {
        match self.below.get(number) {
            Some(Some(step)) => if number_of(*step) == number {
                None
            } else {
                Some(*step)
            },
            Some(None) | None => None,
        }
    }
}

/// Whether the parts after this one can begin with what has to follow.
fn ends_wait(search: Search<'_>, form: &Node, part: NodeId) -> bool {
    let Some(costs) = search.follow else {
        return false;
    };
    let plain = &search.basis.plain;
    let cost = match form {
        Form::Seq(parts) => {
            let (before, after) = around(parts.as_slice(), part);
            sum(
                sum_of(&plain.any, before),
                sequence_cost(plain, costs, after),
            )
        }
        Form::Many(part) => costs.at(*part),
        Form::Chain(_, _, operand, separator) => {
            if part == *operand {
                sequence_cost(plain, costs, &[*separator, *operand])
            } else {
                sum(plain.any.at(*operand), costs.at(*operand))
            }
        }
        Form::Leaf(_)
        | Form::Choice(_)
        | Form::Rule(_)
        | Form::Expression(_, _)
        | Form::Around(_, _) => NONE,
    };
    cost < NONE
}

/// Whether the way can go through this part: what comes before it has a text, and so does what comes after it. While the step waits, what comes after has to
/// be empty.
fn passes(search: Search<'_>, form: &Node, step: Step) -> bool {
    let plain = &search.basis.plain;
    let after = if step.waits {
        &plain.nothing
    } else {
        &plain.any
    };
    let cost = match form {
        Form::Seq(parts) => {
            let (before, behind) = around(parts.as_slice(), NodeId::new(step.node));
            let behind = if search.cut { 0 } else { sum_of(after, behind) };
            sum(sum_of(&plain.any, before), behind)
        }
        Form::Chain(_, _, operand, _) => {
            if step.node == operand.index() {
                0
            } else {
                let behind = if search.cut { 0 } else { after.at(*operand) };
                sum(plain.any.at(*operand), behind)
            }
        }
        Form::Leaf(_)
        | Form::Choice(_)
        | Form::Many(_)
        | Form::Rule(_)
        | Form::Expression(_, _)
        | Form::Around(_, _) => 0,
    };
    cost < NONE
}
