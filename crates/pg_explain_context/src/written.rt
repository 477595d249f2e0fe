//! What was written for a node, and where.

use crate::known::Known;
use pg_file_items::Span;
use pg_grammar_form::NodeId;
use pg_text_excerpt::is_shown;
use std::alloc::{AllocError, Global};

/// The most characters of a form that is shown whole.
const MOST: usize = 40;

/// The characters that were written for a node; an empty span at the end of the file if there is no such node.
pub fn span_of(known: &Known, node: NodeId) -> Span {
    let end = known.file.text.len();
    match known.file.spans.get(node.index()) {
        Some(span) => *span,
        None => Span {
            first: end,
            after: end,
        },
    }
}

/// Appends the line and the column of a place in the file.
pub fn push_position(
    alloc: Global,
    words: &mut String,
    known: &Known,
    place: usize,
) -> Result<(), AllocError> {
    match known.positions.get(place) {
        Some(position) => {
            let line = position.line;
            let column = position.column;
            let shown = format!(in alloc; " ({line}:{column})")?;
            words.push_str(shown.as_str())
        }
        None => Ok(()),
    }
}

/// A form as it was written. A long one, or one on several lines, is given by its first word. Fails where memory runs out.
pub fn written_at(alloc: Global, known: &Known, node: NodeId) -> Result<String, AllocError> {
    let span = span_of(known, node);
    let mut words = String::new(alloc);
    if is_short(known.file.text, span) {
        push_between(&mut words, known.file.text, span)?;
    } else {
        push_word(&mut words, known.file.text, span)?;
        words.push_str("(..)")?;
    }
    Ok(words)
}

/// Whether the characters are few and all of them can be shown on one line.
fn is_short(text: &[char], span: Span) -> bool {
    if span.after.saturating_sub(span.first) > MOST {
        return false;
    }
    (span.first..span.after).all(|place| match text.get(place) {
        Some(c) => is_shown(*c),
        None => false,
    })
}

fn push_between(words: &mut String, text: &[char], span: Span) -> Result<(), AllocError> {
    for place in span.first..span.after {
        match text.get(place) {
            Some(c) => words.push(*c)?,
            None => {}
        }
    }
    Ok(())
}

/// Appends the word that a form begins with.
fn push_word(words: &mut String, text: &[char], span: Span) -> Result<(), AllocError> {
    for place in span.first..span.after {
        match text.get(place) {
            Some(c) if c.is_ascii_alphanumeric() || *c == '_' => words.push(*c)?,
            Some(_) | None => break,
        }
    }
    Ok(())
}
