//! The recipe for a finding.

use crate::forms::{Origin, end_of, is_mark, origin_at, parts_of, within};
use crate::options::option;
use crate::recipe::Recipe;
use crate::rounds::round;
use pg_explain_context::{Known, SetOf, way_of_start};
use pg_grammar_form::{Form, NodeId};
use pg_predict::ViolationKind;
use std::alloc::{AllocError, Global};

/// A node, and a start that it begins with.
#[derive(Clone, Copy)]
pub(crate) struct Beginning {
    pub(crate) node: NodeId,
    pub(crate) start: usize,
}

/// The recipe for the shape of a finding at a node, if there is one (ours). Fails where memory runs out.
pub fn recipe_of(
    alloc: Global,
    known: &Known,
    node: NodeId,
    kind: &ViolationKind<usize>,
) -> Result<Option<Recipe>, AllocError> {
    match kind {
        ViolationKind::AlternativesMeet(first, second, one, other) => {
            let first = alternative(known, node, *first, *one);
            let second = alternative(known, node, *second, *other);
            alternatives(alloc, known, first, second)
        }
        ViolationKind::AlternativeMeetsFollow(number, one, other) => {
            let first = alternative(known, node, *number, *one);
            option(alloc, known, node, first, *other)
        }
        ViolationKind::RoundMeetsFollow(one, other) => round(alloc, known, node, *one, *other),
        ViolationKind::LeftRecursion
        | ViolationKind::EmptyRound
        | ViolationKind::EmptyAlternative(_)
        | ViolationKind::EmptyOperand
        | ViolationKind::OperandMeetsOperators(_)
        | ViolationKind::FollowMeetsOperators(_)
        | ViolationKind::GapMeets(_)
        | ViolationKind::StepCostOver => Ok(None),
    }
}

/// The alternative of a choice with this number, and a start that it begins with.
fn alternative(known: &Known, node: NodeId, number: usize, start: usize) -> Beginning {
    Beginning {
        node: known.alternative(node, number),
        start,
    }
}

/// How a start comes to begin a node: the way from set to set.
pub(crate) fn way_into(
    alloc: Global,
    known: &Known,
    beginning: Beginning,
) -> Result<Vec<usize>, AllocError> {
    let set = SetOf::First(beginning.node.index());
    way_of_start(alloc, known, beginning.start, set)
}

/// The recipe for two alternatives that begin alike.
fn alternatives(
    alloc: Global,
    known: &Known,
    first: Beginning,
    second: Beginning,
) -> Result<Option<Recipe>, AllocError> {
    let one = way_into(alloc, known, first)?;
    let other = way_into(alloc, known, second)?;
    let recipe = match (end_of(known, &one), end_of(known, &other)) {
        (Some(from), Some(to)) => match (origin_at(known, from), origin_at(known, to)) {
            (Origin::String, Origin::String) => Some(strings(known, from, to)),
            (Origin::String, Origin::Word) | (Origin::Word, Origin::String) => {
                Some(Recipe::Keyword)
            }
            (Origin::Word, Origin::Word) => {
                let is_one = is_assignment(known, first.node, &other);
                Some(words(is_one || is_assignment(known, second.node, &one)))
            }
            _ => None,
        },
        _ => None,
    };
    Ok(recipe)
}

/// The recipe for two strings that begin alike.
fn strings(known: &Known, one: NodeId, other: NodeId) -> Recipe {
    if is_mark(known, one) || is_mark(known, other) {
        Recipe::CommentMark
    } else {
        Recipe::AlikeStrings
    }
}

/// The recipe for two alternatives that begin with the same word.
fn words(is_assignment: bool) -> Recipe {
    if is_assignment {
        Recipe::Assignment
    } else {
        Recipe::AlikeNodes
    }
}

/// Whether an alternative is a word followed by a string, and the other alternative comes to its start through an expression.
fn is_assignment(known: &Known, alternative: NodeId, other: &[usize]) -> bool {
    match parts_of(known, within(known, alternative)) {
        [word, mark, ..] => {
            origin_at(known, within(known, *word)) == Origin::Word
                && origin_at(known, first_within(known, *mark)) == Origin::String
                && other.iter().any(|set| is_expression(known, *set))
        }
        [_] | [] => false,
    }
}

/// The node that a part begins with, inside forms around it, uses of rules and sequences.
fn first_within(known: &Known, node: NodeId) -> NodeId {
    let inner = within(known, node);
    match parts_of(known, inner) {
        [first, ..] => within(known, *first),
        [] => inner,
    }
}

/// Whether a set belongs to a chain or an expression.
fn is_expression(known: &Known, set: usize) -> bool {
    match known.form(NodeId::new(set)) {
        Some(Form::Chain(_, _, _, _) | Form::Expression(_, _)) => true,
        Some(
            Form::Leaf(_)
            | Form::Seq(_)
            | Form::Choice(_)
            | Form::Many(_)
            | Form::Rule(_)
            | Form::Around(_, _),
        )
        | None => false,
    }
}
