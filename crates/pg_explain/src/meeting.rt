//! What two things that meet can both begin with, in the words of the file.

use crate::class_words::quoted;
use crate::words::start_words;
use pg_explain_context::{Known, common_character};
use pg_start::Start;
use std::alloc::{AllocError, Global};

/// What things with these starts both begin with: the start if it is one and the same, else a character that begins both.
pub(crate) fn at_starts(
    alloc: Global,
    known: &Known,
    one: usize,
    other: usize,
) -> Result<String, AllocError> {
    if one == other {
        return start_words(alloc, known, one);
    }
    match (known.start(one), known.start(other)) {
        (Some(one), Some(other)) => common_words(alloc, &one.start, &other.start),
        (None, _) | (_, None) => Ok(String::new(alloc)),
    }
}

/// What a start and operators both begin with.
pub(crate) fn at_operators(
    alloc: Global,
    known: &Known,
    start: usize,
) -> Result<String, AllocError> {
    match (known.start(start), known.operator()) {
        (Some(listed), Some(operator)) => common_words(alloc, &listed.start, &operator.start),
        (None, _) | (_, None) => Ok(String::new(alloc)),
    }
}

/// What a start and gaps both begin with.
pub(crate) fn at_gap(alloc: Global, known: &Known, start: usize) -> Result<String, AllocError> {
    match (known.start(start), &known.operators) {
        (Some(listed), Some(both)) => common_words(alloc, &listed.start, &both.gap),
        (None, _) | (_, None) => Ok(String::new(alloc)),
    }
}

/// A character that begins both starts, in words.
fn common_words(alloc: Global, one: &Start, other: &Start) -> Result<String, AllocError> {
    match common_character(one, other) {
        Some(c) => quoted(alloc, c),
        None => String::from_str(alloc, "the end of the text"),
    }
}
