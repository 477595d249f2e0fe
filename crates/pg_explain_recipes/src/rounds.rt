//! Recipes for a round that begins like what follows its repetition.

use crate::forms::{
    Origin, behind, end_of, heads, is_blank, is_line, is_mark, is_wide, may_end, origin_at,
    string_at, within,
};
use crate::recipe::Recipe;
use crate::shapes::{Beginning, way_into};
use pg_explain_context::{Known, SetOf, way_of_start};
use pg_grammar_form::NodeId;
use std::alloc::{AllocError, Global};

/// The recipe for a round that begins like what follows its repetition.
pub(crate) fn round(
    alloc: Global,
    known: &Known,
    node: NodeId,
    one: usize,
    other: usize,
) -> Result<Option<Recipe>, AllocError> {
    let part = Beginning {
        node: known.round(node, one),
        start: one,
    };
    let first = way_into(alloc, known, part)?;
    let next = way_of_start(alloc, known, other, SetOf::Follow(node.index()))?;
    let Some(from) = end_of(known, &first) else {
        return Ok(None);
    };
    let recipe = match (origin_at(known, from), end_of(known, &next)) {
        (Origin::Class, _) if is_comment(known, node, one) => Some(Recipe::LineComment),
        (Origin::Class, Some(to)) => run(known, one, other, to),
        (Origin::String, Some(to)) => text(known, from, to),
        _ => None,
    };
    Ok(recipe)
}

/// Whether a round reads a character of a line, and the end of the line or of the text may follow the repetition.
fn is_comment(known: &Known, node: NodeId, one: usize) -> bool {
    match behind(known, node) {
        Some(next) => is_line(heads(known, one)) && may_end(known, within(known, next)),
        None => false,
    }
}

/// The recipe for a round that reads a character of a class. It depends on the form that follows.
fn run(known: &Known, one: usize, other: usize, to: NodeId) -> Option<Recipe> {
    let taken = heads(known, one);
    match origin_at(known, to) {
        Origin::String if is_wide(taken) => Some(end(string_at(known, to))),
        Origin::Class if is_blank(taken) => Some(blanks(known, other)),
        Origin::Class if !is_wide(taken) => Some(Recipe::Greedy),
        Origin::String | Origin::Class | Origin::Word | Origin::Other => None,
    }
}

/// The recipe for a text that ends with this string.
fn end(characters: &[char]) -> Recipe {
    match characters {
        [_] | [] => Recipe::Quote,
        _ => Recipe::LongEnd,
    }
}

/// The recipe for blanks. It depends on the start that follows.
fn blanks(known: &Known, other: usize) -> Recipe {
    if is_wide(heads(known, other)) {
        Recipe::LeadingBlanks
    } else {
        Recipe::Blanks
    }
}

/// The recipe for a round that begins with a string, where a string with the same beginning follows.
fn text(known: &Known, from: NodeId, to: NodeId) -> Option<Recipe> {
    match (string_at(known, from), string_at(known, to)) {
        (_, []) => None,
        _ if is_mark(known, from) => Some(Recipe::CommentMark),
        ([first, second], [third]) if first == second && second == third => {
            Some(Recipe::DoubledQuote)
        }
        _ => None,
    }
}
