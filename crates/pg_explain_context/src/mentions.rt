//! The names of nodes: as they were written, and where they stand.

use crate::known::Known;
use crate::written::{push_position, span_of, written_at};
use pg_grammar_form::NodeId;
use pg_predict::{Place, place_of};
use pg_text::Characters;
use std::alloc::{AllocError, Global};

/// Where a node stands, as findings name it: its rule's name and its number in the rule. Fails where memory runs out.
pub fn place_text(alloc: Global, known: &Known, node: NodeId) -> Result<String, AllocError> {
    match place_in(known, node) {
        Some(place) => placed(alloc, known, place.rule, place.number),
        None => Ok(String::new(alloc)),
    }
}

/// Where a node stands, if there is such a node.
pub fn place_in(known: &Known, node: NodeId) -> Option<Place> {
    let nodes = known.grammar.nodes();
    if node.index() >= nodes.len() {
        return None;
    }
    Some(place_of(known.grammar.rules(), node))
}

/// The name of a rule, and the number of a node in it.
fn placed(alloc: Global, known: &Known, rule: usize, number: usize) -> Result<String, AllocError> {
    match known.rule(rule) {
        Some(rule) => named(alloc, &rule.name, number),
        None => format!(in alloc; ":{number}"),
    }
}

fn named(alloc: Global, name: &Characters, number: usize) -> Result<String, AllocError> {
    format!(in alloc; "{name}:{number}")
}

/// A node as it was written, and where it stands in the file. Fails where memory runs out.
pub fn mention(alloc: Global, known: &Known, node: NodeId) -> Result<String, AllocError> {
    let mut words = written_at(alloc, known, node)?;
    push_position(alloc, &mut words, known, span_of(known, node).first)?;
    Ok(words)
}

/// The place in the file where the body of the rule with this number begins, or the end of the file if there is no such rule.
pub fn body_place(known: &Known, rule: usize) -> usize {
    match known.rule(rule) {
        Some(rule) => span_of(known, rule.body).first,
        None => known.file.text.len(),
    }
}

/// The name of the rule with this number; empty if there is none. Fails where memory runs out.
pub fn rule_name(alloc: Global, known: &Known, rule: usize) -> Result<String, AllocError> {
    match known.rule(rule) {
        Some(rule) => text_of(alloc, &rule.name),
        None => Ok(String::new(alloc)),
    }
}

/// The characters as a text.
pub fn text_of(alloc: Global, characters: &Characters) -> Result<String, AllocError> {
    format!(in alloc; "{characters}")
}
