//! The number of a choice in its rule.

use pg_grammar_form::{Node, NodeId, Parts, RuleId};
use pg_grammar_value::Grammar;

/// The number, from 1 in preorder, of a choice in the body of a rule, from its alternative `next` and that one's index `which`:
/// the number by which findings name forms.
pub(crate) fn number_of(grammar: &Grammar, rule: RuleId, which: usize, next: NodeId) -> usize {
    let body = match grammar.rules().get(rule.index()) {
        Some(named) => named.body.index(),
        None => 0,
    };
    let choice = choice_before(grammar.nodes(), which, next);
    choice.saturating_sub(body).saturating_add(1)
}

/// The last node before the alternative that has it; parts stand after the node they belong to.
fn choice_before(nodes: &[Node], which: usize, next: NodeId) -> usize {
    for number in (0..next.index()).rev() {
        if has_alternative(nodes.get(number), which, next) {
            return number;
        }
    }
    0
}

/// Whether the node is a choice with this alternative at index `which`.
fn has_alternative(node: Option<&Node>, which: usize, next: NodeId) -> bool {
    match choice(node) {
        Some(parts) => parts.as_slice().get(which) == Some(&next),
        None => false,
    }
}

fn choice(node: Option<&Node>) -> Option<&Parts> {
    node?.alternatives()
}
