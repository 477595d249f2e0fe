//! Notes on a grammar.

use crate::derivable::derivable_nodes;
use crate::symbols::idle_symbol;
use crate::used::{Used, used_by};
use pg_file_items::Span;
use pg_grammar_value::{Grammar, Rule};
use pg_text::Characters;
use std::alloc::{AllocError, Global};

/// A note on a rule, a symbol, a class or a word item.
#[derive(Drop)]
pub struct Note {
    /// What is noted, in words.
    pub words: String,
    /// Where the rule's body or the symbol's form stands: how many characters of the file are before it. A class and a word item have no place.
    pub place: Option<usize>,
}

/// The notes on a grammar whose nodes have these spans in its file (ours): one for each rule that derives no text or that the start rule doesn't reach, for
/// each symbol for which a builder has no use, and for each class and each word item that nothing uses. Fails where memory runs out.
pub fn notes_on(alloc: Global, grammar: &Grammar, spans: &[Span]) -> Result<Vec<Note>, AllocError> {
    let derivable = derivable_nodes(alloc, grammar)?;
    let used = used_by(alloc, grammar)?;
    let mut notes = Vec::new(alloc);
    for (number, rule) in grammar.rules().iter().enumerate() {
        if !has(&used.rules, number) {
            let words = "the start rule never reaches";
            push_rule(alloc, &mut notes, spans, rule, words)?;
        } else if !has(&derivable, rule.body.index()) {
            push_rule(alloc, &mut notes, spans, rule, "no text is derived from")?;
        }
    }
    push_symbols(alloc, &mut notes, grammar, spans)?;
    push_items(alloc, &mut notes, grammar, &used)?;
    Ok(notes)
}

/// Adds the notes on symbols for which builders have no use. Short forms copy nodes, whose symbols stand in the file once.
fn push_symbols(
    alloc: Global,
    notes: &mut Vec<Note>,
    grammar: &Grammar,
    spans: &[Span],
) -> Result<(), AllocError> {
    let mut noted = Vec::new(alloc);
    for (number, node) in grammar.nodes().iter().enumerate() {
        let place = place_of(spans, number);
        if let Some(words) = idle_symbol(alloc, node)? {
            push_symbol(notes, &mut noted, words, place)?;
        }
    }
    Ok(())
}

/// Adds the note on a symbol, unless that of its place was noted.
fn push_symbol(
    notes: &mut Vec<Note>,
    noted: &mut Vec<usize>,
    words: String,
    place: usize,
) -> Result<(), AllocError> {
    if noted.iter().any(|other| *other == place) {
        return Ok(());
    }
    noted.push(place)?;
    notes.push(Note {
        words,
        place: Some(place),
    })?;
    Ok(())
}

/// Where a node stands in the file.
fn place_of(spans: &[Span], node: usize) -> usize {
    match spans.get(node) {
        Some(span) => span.first,
        None => 0,
    }
}

/// Adds the notes on a rule.
fn push_rule(
    alloc: Global,
    notes: &mut Vec<Note>,
    spans: &[Span],
    rule: &Rule,
    words: &str,
) -> Result<(), AllocError> {
    let name = &rule.name;
    let place = place_of(spans, rule.body.index());
    let words = format!(in alloc; "{words} `{name}`")?;
    notes.push(Note {
        words,
        place: Some(place),
    })?;
    Ok(())
}

/// Adds the notes on the classes and the word items that nothing uses.
fn push_items(
    alloc: Global,
    notes: &mut Vec<Note>,
    grammar: &Grammar,
    used: &Used,
) -> Result<(), AllocError> {
    for (number, item) in grammar.class_items().iter().enumerate() {
        if !has(&used.classes, number) {
            push_unused(alloc, notes, "class", &item.name)?;
        }
    }
    for (number, item) in grammar.word_items().iter().enumerate() {
        if !has(&used.words, number) {
            push_unused(alloc, notes, "word item", &item.name)?;
        }
    }
    Ok(())
}

/// Adds the note that nothing uses an item of this kind.
fn push_unused(
    alloc: Global,
    notes: &mut Vec<Note>,
    kind: &str,
    name: &Characters,
) -> Result<(), AllocError> {
    let words = format!(in alloc; "nothing uses the {kind} `{name}`")?;
    notes.push(Note { words, place: None })?;
    Ok(())
}

/// Whether this number is marked.
fn has(marks: &[bool], number: usize) -> bool {
    match marks.get(number) {
        Some(mark) => *mark,
        None => false,
    }
}
