//! Look-ups of nodes, rule bodies and parts.

use pg_grammar_form::{Node, NodeId, Parts, RuleId};
use pg_grammar_value::Grammar;

/// The form of a node, if there is such a node.
pub fn form_at(grammar: &Grammar, node: NodeId) -> Option<&Node> {
    grammar.nodes().get(node.index())
}

/// The body of a rule, if there is such a rule.
pub(crate) fn body_of(grammar: &Grammar, rule: RuleId) -> Option<NodeId> {
    match grammar.rules().get(rule.index()) {
        Some(rule) => Some(rule.body),
        None => None,
    }
}

/// The parts before one and those after it; both empty if it isn't among them.
pub(crate) fn around(parts: &[NodeId], part: NodeId) -> (&[NodeId], &[NodeId]) {
    for (place, other) in parts.iter().enumerate() {
        if *other == part {
            let (before, rest) = parts.split_at(place.min(parts.len()));
            return match rest {
                [_, after @ ..] => (before, after),
                [] => (before, rest),
            };
        }
    }
    (&[], &[])
}

/// The alternatives of a choice; empty for any other form.
pub fn alternatives(grammar: &Grammar, node: NodeId) -> &[NodeId] {
    match choice_at(grammar, node) {
        Some(parts) => parts.as_slice(),
        None => &[],
    }
}

fn choice_at(grammar: &Grammar, node: NodeId) -> Option<&Parts> {
    form_at(grammar, node)?.alternatives()
}
