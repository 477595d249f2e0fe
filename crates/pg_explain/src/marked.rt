//! The marks in the file for a finding.

use crate::alternatives::{MOST, beginning_with};
use crate::recursion::next_head;
use pg_explain_context::{Known, front_use, place_in, span_of};
use pg_grammar_form::NodeId;
use pg_predict::ViolationKind;
use pg_text_excerpt::Mark;
use std::alloc::{AllocError, Global};

/// The marks for a finding, in their order in the file: the alternatives with their numbers, or what the finding is about.
pub(crate) fn marks_of(
    alloc: Global,
    known: &Known,
    node: NodeId,
    kind: &ViolationKind<usize>,
) -> Result<Vec<Mark>, AllocError> {
    let mut marks = Vec::new(alloc);
    push_marks(alloc, known, node, kind, &mut marks)?;
    if marks.is_empty() {
        push_plain(known, node, &mut marks)?;
    }
    in_order(alloc, &marks)
}

/// Adds the marks for a finding, unless it is about the node itself.
fn push_marks(
    alloc: Global,
    known: &Known,
    node: NodeId,
    kind: &ViolationKind<usize>,
    marks: &mut Vec<Mark>,
) -> Result<(), AllocError> {
    match kind {
        ViolationKind::LeftRecursion => {
            push_plain(known, coming_back(alloc, known, node)?, marks)
        }
        ViolationKind::EmptyRound | ViolationKind::EmptyOperand => {
            push_plain(known, known.emptied(node), marks)
        }
        ViolationKind::EmptyAlternative(k) | ViolationKind::AlternativeMeetsFollow(k, _, _) => {
            push_alternatives(known, node, &[*k], marks)
        }
        ViolationKind::AlternativesMeet(_, _, one, other) => {
            push_beginning(alloc, known, node, *one, marks)?;
            if one == other {
                return Ok(());
            }
            push_beginning(alloc, known, node, *other, marks)
        }
        ViolationKind::OperandMeetsOperators(start) => {
            push_plain(known, known.round(node, *start), marks)
        }
        ViolationKind::RoundMeetsFollow(_, _)
        | ViolationKind::FollowMeetsOperators(_)
        | ViolationKind::GapMeets(_)
        | ViolationKind::StepCostOver => Ok(()),
    }
}

/// Adds marks of the alternatives that begin with a start.
fn push_beginning(
    alloc: Global,
    known: &Known,
    node: NodeId,
    start: usize,
    marks: &mut Vec<Mark>,
) -> Result<(), AllocError> {
    let numbers = beginning_with(alloc, known, node, start)?;
    push_alternatives(known, node, &numbers, marks)
}

/// The use of a rule that this rule begins with and that leads back to it, or the rule's body if there is none.
fn coming_back(alloc: Global, known: &Known, node: NodeId) -> Result<NodeId, AllocError> {
    let Some(place) = place_in(known, node) else {
        return Ok(node);
    };
    let Some(head) = next_head(alloc, known, place.rule)? else {
        return Ok(node);
    };
    match front_use(alloc, known, node, head)? {
        Some(back) => Ok(back),
        None => Ok(node),
    }
}

/// Adds an unnumbered mark of a node.
fn push_plain(known: &Known, node: NodeId, marks: &mut Vec<Mark>) -> Result<(), AllocError> {
    let span = span_of(known, node);
    marks.push(Mark {
        first: span.first,
        after: span.after,
        number: None,
    })?;
    Ok(())
}

/// Adds marks of the first alternatives with these numbers, if they were written by themselves and aren't marked yet.
fn push_alternatives(
    known: &Known,
    node: NodeId,
    numbers: &[usize],
    marks: &mut Vec<Mark>,
) -> Result<(), AllocError> {
    let whole = span_of(known, node);
    for (before, number) in numbers.iter().enumerate() {
        let span = span_of(known, known.alternative(node, *number));
        if before < MOST && span != whole && !is_marked(marks, *number) {
            marks.push(Mark {
                first: span.first,
                after: span.after,
                number: Some(*number),
            })?;
        }
    }
    Ok(())
}

fn is_marked(marks: &[Mark], number: usize) -> bool {
    marks.iter().any(|mark| mark.number == Some(number))
}

/// The marks in the order of their first characters.
fn in_order(alloc: Global, marks: &[Mark]) -> Result<Vec<Mark>, AllocError> {
    let mut sorted = Vec::new(alloc);
    for mark in marks {
        sorted.push(*mark)?;
    }
    sorted.sort_by_key(|mark: &Mark| mark.first)?;
    Ok(sorted)
}
