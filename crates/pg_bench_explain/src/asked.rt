//! The nodes of a grammar that a command line asks for.

use pg_file_tokens::is_word;
use pg_grammar_value::{Grammar, Rule};

/// The nodes from one number up to, but not including, another.
#[derive(Clone, Copy)]
pub(crate) struct Nodes {
    pub(crate) from: usize,
    pub(crate) to: usize,
}

/// The nodes of `RULE`, the single node of `RULE:NODE`, where nodes are counted from 1, or all nodes if `asked` is empty. `None` if there is no such rule or
/// node.
pub(crate) fn nodes_asked(grammar: &Grammar, asked: &str) -> Option<Nodes> {
    if asked.is_empty() {
        return Some(Nodes {
            from: 0,
            to: grammar.nodes().len(),
        });
    }
    match asked.split_once(':') {
        Some((name, number)) => node_in(nodes_of_rule(grammar, name)?, number),
        None => nodes_of_rule(grammar, asked),
    }
}

/// The nodes of the rule with this name.
fn nodes_of_rule(grammar: &Grammar, name: &str) -> Option<Nodes> {
    let rules = grammar.rules();
    let rule = place_of_rule(rules, name)?;
    let from = body_of(rules, rule)?;
    let to = match body_of(rules, rule.saturating_add(1)) {
        Some(next) => next,
        None => grammar.nodes().len(),
    };
    Some(Nodes { from, to })
}

/// The index of the rule with this name.
fn place_of_rule(rules: &[Rule], name: &str) -> Option<usize> {
    rules
        .iter()
        .position(|rule| is_word(name, rule.name.as_slice()))
}

/// The number of the node that is a rule's body.
fn body_of(rules: &[Rule], rule: usize) -> Option<usize> {
    match rules.get(rule) {
        Some(rule) => Some(rule.body.index()),
        None => None,
    }
}

/// The node with this number among these nodes, counting from 1.
fn node_in(nodes: Nodes, number: &str) -> Option<Nodes> {
    let Ok(number) = number.parse::<usize>() else {
        return None;
    };
    let from = nodes.from.checked_add(number.checked_sub(1)?)?;
    if from >= nodes.to {
        return None;
    }
    Some(Nodes { from, to: from + 1 })
}
