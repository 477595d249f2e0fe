//! The answer of a run to a text that shows a finding, on one line.

use crate::witnesses::push_messages;
use pg_explain::push_quoted;
use pg_explain_witness::Shown;
use pg_message::ParseError;
use pg_text::Text;
use std::alloc::{AllocError, Global};

/// The answer of a run to a text, in words.
pub(crate) fn answer_words(
    alloc: Global,
    text: &Text,
    shown: &Shown,
) -> Result<String, AllocError> {
    match shown {
        Shown::Lost { consumed, error } => lost_words(alloc, *consumed, error),
        Shown::LeftOver(place) => left_over_words(alloc, text, *place),
        Shown::TwoReadings { apart: true } => {
            String::from_str(alloc, "it is read in two ways, with different trees")
        }
        Shown::TwoReadings { apart: false } => {
            String::from_str(alloc, "it is read in two ways, with the same trees")
        }
        Shown::EmptyRound => String::from_str(alloc, "P6: a round consumes nothing"),
        Shown::NoAnswer(steps) => format!(in alloc; "P5: no answer in {steps} steps"),
    }
}

/// The words for an error, and where it is.
pub(crate) fn lost_words(
    alloc: Global,
    consumed: bool,
    error: &ParseError,
) -> Result<String, AllocError> {
    let answer = if consumed {
        "consumed error"
    } else {
        "empty error"
    };
    let line = error.position.line;
    let column = error.position.column;
    let mut words = format!(in alloc; "{answer} at line {line}, column {column}")?;
    push_messages(alloc, &mut words, error)?;
    Ok(words)
}

/// The words for an ok answer, and what it leaves over.
fn left_over_words(alloc: Global, text: &Text, place: usize) -> Result<String, AllocError> {
    let left = match text.characters().get(place..) {
        Some(left) => left,
        None => &[],
    };
    let mut words = String::from_str(alloc, "ok, but it leaves over ")?;
    push_quoted(alloc, &mut words, left)?;
    Ok(words)
}
