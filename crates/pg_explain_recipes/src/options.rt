//! Recipes for an alternative that begins like what follows its choice.

use crate::forms::{Origin, end_of, is_line, may_end, origin_at, string_at};
use crate::recipe::Recipe;
use crate::shapes::{Beginning, way_into};
use pg_explain_context::{Known, SetOf, way_of_start};
use pg_grammar_form::NodeId;
use std::alloc::{AllocError, Global};

/// The recipe for an alternative that begins like what follows its choice.
pub(crate) fn option(
    alloc: Global,
    known: &Known,
    node: NodeId,
    first: Beginning,
    other: usize,
) -> Result<Option<Recipe>, AllocError> {
    let one = way_into(alloc, known, first)?;
    let Some(from) = end_of(known, &one) else {
        return Ok(None);
    };
    if may_end(known, node) {
        return Ok(at_end(known, node, from));
    }
    if origin_at(known, from) != Origin::String {
        return Ok(None);
    }
    let way = way_of_start(alloc, known, other, SetOf::Follow(node.index()))?;
    if comes_back(known, node, &way) {
        Ok(Some(Recipe::NearestElse))
    } else {
        Ok(None)
    }
}

/// The recipe if an alternative is the end of the text.
fn at_end(known: &Known, node: NodeId, from: NodeId) -> Option<Recipe> {
    match string_at(known, from) {
        ['\n'] if ends_line(known, node) => Some(Recipe::LineComment),
        ['\n'] => Some(Recipe::Lines),
        _ => None,
    }
}

/// Whether the node right before a choice can begin with any character of a line.
fn ends_line(known: &Known, node: NodeId) -> bool {
    let Some(before) = node.index().checked_sub(1) else {
        return false;
    };
    let first = known.sets.first(NodeId::new(before));
    if before >= known.count() {
        return false;
    }
    for number in 0..known.sets.starts().len() {
        if first.contains(number) && is_line(crate::forms::heads(known, number)) {
            return true;
        }
    }
    false
}

/// Whether the way from what follows a choice leads to the choice itself, through what follows a use of a rule before it. The choice then nests at its own
/// end.
fn comes_back(known: &Known, node: NodeId, way: &[usize]) -> bool {
    let mut earlier: Option<usize> = None;
    for set in way {
        if *set == node.index() {
            return match earlier {
                Some(number) => is_use_before(known, number, node),
                None => false,
            };
        }
        earlier = Some(*set);
    }
    false
}

/// Whether a set is what follows the use of a rule, and that use stands before a node.
fn is_use_before(known: &Known, set: usize, node: NodeId) -> bool {
    match SetOf::at(known, set) {
        SetOf::First(_) => false,
        SetOf::Follow(number) => {
            number < node.index() && known.rule_used(NodeId::new(number)).is_some()
        }
    }
}
