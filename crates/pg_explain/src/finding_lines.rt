//! The lines below a headline.

use crate::alternatives::{MOST, beginning_with};
use crate::causes::Meeting;
use crate::chains::{first_chain, follow_chain};
use crate::class_words::quoted;
use crate::words::start_words;
use pg_explain_context::{Known, common_character};
use pg_grammar_form::NodeId;
use pg_sets_own::ListedStart;
use pg_start::Start;
use std::alloc::{AllocError, Global};

/// The most other starts that are named.
const MOST_STARTS: usize = 6;

/// Appends a line.
pub(crate) fn push_line(page: &mut String, words: &str) -> Result<(), AllocError> {
    page.push_str("  ")?;
    page.push_str(words)?;
    page.push_str("\n")
}

/// Appends what a node can begin with, and how.
pub(crate) fn push_first(
    alloc: Global,
    page: &mut String,
    known: &Known,
    who: &str,
    node: NodeId,
    start: usize,
) -> Result<(), AllocError> {
    let words = start_words(alloc, known, start)?;
    let chain = first_chain(alloc, known, start, node)?;
    let line = format!(in alloc; "{who} can begin with {words}: {chain}")?;
    push_line(page, line.as_str())
}

/// Appends what an alternative can begin with, and how.
pub(crate) fn push_alternative(
    alloc: Global,
    page: &mut String,
    known: &Known,
    node: NodeId,
    number: usize,
    start: usize,
) -> Result<(), AllocError> {
    let who = format!(in alloc; "{number}")?;
    let part = known.alternative(node, number);
    push_first(alloc, page, known, who.as_str(), part, start)
}

/// Appends what the alternatives that meet at two starts can begin with, and how: the first few alternatives for each start.
pub(crate) fn push_alternatives(
    alloc: Global,
    page: &mut String,
    known: &Known,
    node: NodeId,
    one: usize,
    other: usize,
) -> Result<(), AllocError> {
    let with_one = beginning_with(alloc, known, node, one)?;
    for number in with_one.iter().take(MOST) {
        push_alternative(alloc, page, known, node, *number, one)?;
    }
    if one == other {
        return Ok(());
    }
    let with_other = beginning_with(alloc, known, node, other)?;
    for number in with_other.iter().take(MOST) {
        push_alternative(alloc, page, known, node, *number, other)?;
    }
    Ok(())
}

/// Appends what can follow a node, and how.
pub(crate) fn push_follow(
    alloc: Global,
    page: &mut String,
    known: &Known,
    node: NodeId,
    start: usize,
) -> Result<(), AllocError> {
    let words = start_words(alloc, known, start)?;
    let chain = follow_chain(alloc, known, start, node)?;
    let line = format!(in alloc; "what follows can be {words}: {chain}")?;
    push_line(page, line.as_str())
}

/// Appends a character that begins both starts.
pub(crate) fn push_both(
    alloc: Global,
    page: &mut String,
    known: &Known,
    one: usize,
    other: usize,
) -> Result<(), AllocError> {
    match (known.start(one), known.start(other)) {
        (Some(one), Some(other)) => push_common(alloc, page, &one.start, &other.start),
        (None, _) | (_, None) => Ok(()),
    }
}

/// Appends a character that begins a start and operators.
pub(crate) fn push_operator(
    alloc: Global,
    page: &mut String,
    known: &Known,
    start: usize,
) -> Result<(), AllocError> {
    push_line(page, "so can operators")?;
    match (known.start(start), known.operator()) {
        (Some(listed), Some(operator)) => push_common(alloc, page, &listed.start, &operator.start),
        (None, _) | (_, None) => Ok(()),
    }
}

/// Appends a character that begins a start and is in gaps.
pub(crate) fn push_gap(
    alloc: Global,
    page: &mut String,
    known: &Known,
    start: usize,
) -> Result<(), AllocError> {
    push_line(page, "a gap reads as many characters as it can")?;
    match (known.start(start), &known.operators) {
        (Some(listed), Some(both)) => push_common(alloc, page, &listed.start, &both.gap),
        (None, _) | (_, None) => Ok(()),
    }
}

/// Appends the other starts where the same things meet, if there are any.
pub(crate) fn push_also(
    alloc: Global,
    page: &mut String,
    known: &Known,
    also: &[Meeting],
) -> Result<(), AllocError> {
    if also.is_empty() {
        return Ok(());
    }
    let mut words = String::from_str(alloc, "they also meet at ")?;
    push_meetings(alloc, &mut words, known, also)?;
    push_line(page, words.as_str())
}

/// Appends the first starts where things meet, and how many more there are.
fn push_meetings(
    alloc: Global,
    words: &mut String,
    known: &Known,
    also: &[Meeting],
) -> Result<(), AllocError> {
    for (before, met) in also.iter().enumerate() {
        if before > 0 {
            words.push_str("; ")?;
        }
        if before >= MOST_STARTS {
            let more = also.len().saturating_sub(before);
            let word = format!(in alloc; "{more} more")?;
            return words.push_str(word.as_str());
        }
        push_meeting(alloc, words, known, met)?;
    }
    Ok(())
}

/// Appends the starts where something meets.
fn push_meeting(
    alloc: Global,
    words: &mut String,
    known: &Known,
    met: &Meeting,
) -> Result<(), AllocError> {
    let one = start_words(alloc, known, met.one)?;
    words.push_str(one.as_str())?;
    if met.one != met.other {
        let other = start_words(alloc, known, met.other)?;
        words.push_str(" and ")?;
        words.push_str(other.as_str())?;
    }
    Ok(())
}

fn push_common(
    alloc: Global,
    page: &mut String,
    one: &Start,
    other: &Start,
) -> Result<(), AllocError> {
    match common_character(one, other) {
        Some(c) => {
            let c = quoted(alloc, c)?;
            let line = format!(in alloc; "both can begin with {c}")?;
            push_line(page, line.as_str())
        }
        None => push_line(page, "both are possible at the end of the text"),
    }
}
