//! What a layout has to have for each node: whether it is gone into by the next character somewhere, and whether it is tried somewhere.

use crate::verdict::Verdict;
use pg_grammar_form::{Form, Leaf, Node, NodeId};
use pg_grammar_value::Grammar;
use std::alloc::{AllocError, Global};

/// How many kinds of next characters tables tell apart.
pub(crate) const SLOTS: usize = 130;

/// What is told of a node before any of the next characters.
#[derive(Clone, Copy)]
pub(crate) struct Needs {
    /// Whether it takes something there.
    pub(crate) takes: bool,
    /// Whether it is empty there.
    pub(crate) is_empty: bool,
    /// Whether nothing is told there.
    pub(crate) is_unknown: bool,
    /// How many instructions its code has, with no part of it laid out for both cases.
    pub(crate) size: usize,
    /// Whether there is a use of a rule in it.
    pub(crate) uses_rules: bool,
}

impl Needs {
    /// Of a node of which nothing has been seen.
    const NONE: Needs = Needs {
        takes: false,
        is_empty: false,
        is_unknown: false,
        size: 1,
        uses_rules: false,
    };

    /// Sees a verdict on the node.
    fn see(&mut self, verdict: Verdict) {
        match verdict {
            Verdict::Takes => self.takes = true,
            Verdict::Empty(_) => self.is_empty = true,
            Verdict::Unknown => self.is_unknown = true,
            Verdict::Fails(_) => {}
        }
    }
}

/// What a layout has to have for each node, by the verdicts on it.
pub(crate) fn needs_of(
    alloc: Global,
    grammar: &Grammar,
    columns: &[Vec<Verdict>],
) -> Result<Vec<Needs>, AllocError> {
    let nodes = grammar.nodes();
    let mut needs = vec![in alloc; Needs::NONE; nodes.len()]?;
    for column in columns {
        see_column(needs.as_mut_slice(), column.as_slice());
    }
    for (id, node) in nodes.iter().enumerate().rev() {
        let size = size_of(nodes, needs.as_slice(), node);
        let uses_rules = uses_rules(needs.as_slice(), node);
        if let Some(need) = needs.get_mut(id) {
            need.size = size;
            need.uses_rules = uses_rules;
        }
    }
    Ok(needs)
}

/// Sees the verdict on each node.
fn see_column(needs: &mut [Needs], column: &[Verdict]) {
    for (need, verdict) in needs.iter_mut().zip(column) {
        need.see(*verdict);
    }
}

/// The number of instructions of a node's code, by those of its parts.
fn size_of(nodes: &[Node], needs: &[Needs], node: &Node) -> usize {
    match node {
        Form::Leaf(_) | Form::Rule(_) => 1,
        Form::Seq(parts) => sum_of(needs, parts.as_slice(), 0),
        Form::Choice(parts) => sum_of(needs, parts.as_slice(), 4),
        Form::Many(part) => {
            if is_satisfy(nodes, *part) {
                1
            } else {
                sum_of(needs, &[*part], 5)
            }
        }
        Form::Chain(_, _, operand, separator) => {
            sum_of(needs, &[*operand, *separator, *operand], 4)
        }
        Form::Around(_, part) => sum_of(needs, &[*part], 1),
        Form::Expression(_, part) => sum_of(needs, &[*part], 20),
    }
}

/// Whether there is a use of a rule in a node, by whether there is one in its parts.
fn uses_rules(needs: &[Needs], node: &Node) -> bool {
    match node {
        Form::Leaf(_) => false,
        Form::Rule(_) => true,
        Form::Seq(parts) | Form::Choice(parts) => any_uses_rules(needs, parts.as_slice()),
        Form::Chain(_, _, operand, separator) => any_uses_rules(needs, &[*operand, *separator]),
        Form::Many(part) | Form::Expression(_, part) | Form::Around(_, part) => {
            any_uses_rules(needs, &[*part])
        }
    }
}

/// Whether there is a use of a rule in one of these nodes.
fn any_uses_rules(needs: &[Needs], parts: &[NodeId]) -> bool {
    for part in parts {
        if needs_at(needs, *part).uses_rules {
            return true;
        }
    }
    false
}

/// The sizes of parts, each with so many instructions more, and one.
fn sum_of(needs: &[Needs], parts: &[NodeId], more: usize) -> usize {
    let mut sum: usize = 1;
    for part in parts {
        let size = size_at(needs, *part);
        sum = sum.saturating_add(size).saturating_add(more);
    }
    sum
}

/// The size of a node's code.
pub(crate) fn size_at(needs: &[Needs], node: NodeId) -> usize {
    needs_at(needs, node).size
}

/// What is needed for a node.
pub(crate) fn needs_at(needs: &[Needs], node: NodeId) -> Needs {
    needs.get(node.index()).copied().unwrap_or(Needs::NONE)
}

/// Whether a node takes one character of a class.
pub(crate) fn is_satisfy(nodes: &[Node], id: NodeId) -> bool {
    match nodes.get(id.index()) {
        Some(Form::Leaf(leaf)) => match leaf {
            Leaf::Satisfy(_) => true,
            Leaf::String(_)
            | Leaf::Word(_)
            | Leaf::NotFollowedBy(_)
            | Leaf::EndOfText
            | Leaf::Declare(_) => false,
        },
        Some(
            Form::Seq(_)
            | Form::Choice(_)
            | Form::Many(_)
            | Form::Chain(_, _, _, _)
            | Form::Rule(_)
            | Form::Expression(_, _)
            | Form::Around(_, _),
        )
        | None => false,
    }
}
