//! Whether any rule has more findings of a condition than before.
//!
//! Findings of one condition at one form count once in a rule. So what a change copies counts in the rule that it is copied into.

use crate::finding::Found;
use pg_grammar_form::NodeId;
use pg_grammar_value::Grammar;
use std::alloc::{AllocError, Global};

/// Findings of a grammar.
#[derive(Clone, Copy)]
pub(crate) struct Findings<'f> {
    pub(crate) grammar: &'f Grammar,
    pub(crate) found: &'f [Found],
}

/// Whether no rule, found by its name, has more findings of any condition than before.
pub(crate) fn has_no_more(
    alloc: Global,
    before: Findings<'_>,
    after: Findings<'_>,
) -> Result<bool, AllocError> {
    let found = distinct(alloc, before.found)?;
    let others = distinct(alloc, after.found)?;
    let before = Findings {
        grammar: before.grammar,
        found: &found,
    };
    let after = Findings {
        grammar: after.grammar,
        found: &others,
    };
    Ok(are_no_more(before, after))
}

/// As `has_no_more`, for findings that are distinct.
fn are_no_more(before: Findings<'_>, after: Findings<'_>) -> bool {
    for found in after.found {
        let name = rule_name(after.grammar, found.broken.node);
        let condition = found.broken.condition;
        if count_in(after, name, condition) > count_in(before, name, condition) {
            return false;
        }
    }
    true
}

/// These findings, each form and condition once.
fn distinct(alloc: Global, all: &[Found]) -> Result<Vec<Found>, AllocError> {
    let mut found: Vec<Found> = Vec::new(alloc);
    for one in all {
        if !one.is_among(&found) {
            found.push(*one)?;
        }
    }
    Ok(found)
}

/// How many findings of a condition the rule with this name has.
fn count_in(findings: Findings<'_>, name: &[char], condition: u8) -> usize {
    let mut count: usize = 0;
    for found in findings.found {
        if found.broken.condition == condition
            && rule_name(findings.grammar, found.broken.node) == name
        {
            count = count.saturating_add(1);
        }
    }
    count
}

/// The name of the rule that a node stands in.
fn rule_name(grammar: &Grammar, node: NodeId) -> &[char] {
    let mut name: &[char] = &[];
    for rule in grammar.rules() {
        if rule.body.index() <= node.index() {
            name = rule.name.as_slice();
        }
    }
    name
}
