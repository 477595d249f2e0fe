//! The alternatives of a choice that meet.

use pg_explain_context::Known;
use pg_grammar_form::NodeId;
use std::alloc::{AllocError, Global};

/// The most alternatives that are named.
pub(crate) const MOST: usize = 8;

/// The numbers, counting from 1, of the alternatives that can begin with a start.
pub(crate) fn beginning_with(
    alloc: Global,
    known: &Known,
    node: NodeId,
    start: usize,
) -> Result<Vec<usize>, AllocError> {
    let mut numbers = Vec::new(alloc);
    for (before, part) in known.alternatives(node).iter().enumerate() {
        if known.sets.first(*part).contains(start) {
            numbers.push(before.saturating_add(1))?;
        }
    }
    Ok(numbers)
}

/// Whether each alternative begins with the first two starts just as it does with the other two, in this order or swapped.
pub(crate) fn begin_alike(
    known: &Known,
    node: NodeId,
    these: (usize, usize),
    those: (usize, usize),
) -> bool {
    let parts = known.alternatives(node);
    let (one, other) = those;
    both_alike(known, parts, these, (one, other)) || both_alike(known, parts, these, (other, one))
}

fn both_alike(
    known: &Known,
    parts: &[NodeId],
    these: (usize, usize),
    those: (usize, usize),
) -> bool {
    parts.iter().all(|part| {
        let first = known.sets.first(*part);
        first.contains(these.0) == first.contains(those.0)
            && first.contains(these.1) == first.contains(those.1)
    })
}

/// The number of pairs of different alternatives that meet because one begins with `one` and the other with `other`.
pub(crate) fn pairs(known: &Known, node: NodeId, one: usize, other: usize) -> usize {
    let mut with_one: usize = 0;
    let mut with_other: usize = 0;
    let mut with_both: usize = 0;
    for part in known.alternatives(node) {
        let first = known.sets.first(*part);
        with_one = with_one.saturating_add(usize::from(first.contains(one)));
        with_other = with_other.saturating_add(usize::from(first.contains(other)));
        with_both = with_both.saturating_add(usize::from(
            first.contains(one) && first.contains(other),
        ));
    }
    let pairs = with_one
        .saturating_mul(with_other)
        .saturating_sub(with_both);
    if one == other { pairs / 2 } else { pairs }
}

/// Numbers in words: `1`, `1 and 2`, `1, 2 and 3`, or the first of them and how many more there are.
pub(crate) fn numbers_words(alloc: Global, numbers: &[usize]) -> Result<String, AllocError> {
    let mut words = String::new(alloc);
    push_numbers(alloc, &mut words, numbers)?;
    push_more(alloc, &mut words, numbers.len().saturating_sub(MOST))?;
    Ok(words)
}

/// Appends the first of these numbers in words.
fn push_numbers(alloc: Global, words: &mut String, numbers: &[usize]) -> Result<(), AllocError> {
    for (at, number) in numbers.iter().enumerate() {
        if at >= MOST {
            break;
        }
        let joint = if at == 0 {
            ""
        } else if at.saturating_add(1) == numbers.len() {
            " and "
        } else {
            ", "
        };
        let word = format!(in alloc; "{joint}{number}")?;
        words.push_str(word.as_str())?;
    }
    Ok(())
}

/// Appends how many more there are, if any.
fn push_more(alloc: Global, words: &mut String, more: usize) -> Result<(), AllocError> {
    if more == 0 {
        return Ok(());
    }
    let word = format!(in alloc; " and {more} more")?;
    words.push_str(word.as_str())
}
