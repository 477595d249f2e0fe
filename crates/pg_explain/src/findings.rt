//! The lines on a finding.

use crate::causes::Cause;
use crate::emptiness::emptiness;
use crate::finding_lines::{
    push_also, push_alternative, push_alternatives, push_both, push_first, push_follow, push_gap,
    push_line, push_operator,
};
use crate::marked::marks_of;
use crate::recursion::recursion;
use pg_explain_context::{Known, place_in, place_text, span_of};
use pg_grammar_form::{NodeId, RuleId};
use pg_predict::{ViolationKind, code};
use pg_text_excerpt::push_excerpt;
use std::alloc::{AllocError, Global};

/// Where a finding is, and its code.
pub(crate) fn head(
    alloc: Global,
    known: &Known,
    node: NodeId,
    kind: &ViolationKind<usize>,
) -> Result<String, AllocError> {
    let place = place_text(alloc, known, node)?;
    let code = code(kind);
    format!(in alloc; "{place}: {code}")
}

/// The lines on a cause of findings at a node, after the first line: where it is, and how it comes about.
pub(crate) fn told(
    alloc: Global,
    known: &Known,
    node: NodeId,
    cause: &Cause,
    first: String,
) -> Result<String, AllocError> {
    let mut page = first;
    push_told(alloc, &mut page, known, node, cause)?;
    Ok(page)
}

/// Appends the file's line with its marks, and how the finding comes about.
fn push_told(
    alloc: Global,
    page: &mut String,
    known: &Known,
    node: NodeId,
    cause: &Cause,
) -> Result<(), AllocError> {
    push_marked(alloc, page, known, node, &cause.kind)?;
    push_lines(alloc, page, known, node, &cause.kind)?;
    push_also(alloc, page, known, &cause.also)
}

/// Appends the file's line with its marks.
fn push_marked(
    alloc: Global,
    page: &mut String,
    known: &Known,
    node: NodeId,
    kind: &ViolationKind<usize>,
) -> Result<(), AllocError> {
    let marks = marks_of(alloc, known, node, kind)?;
    let first = span_of(known, node).first;
    push_excerpt(alloc, page, known.file.name, known.file.text, first, &marks)
}

/// Appends how the finding comes about.
fn push_lines(
    alloc: Global,
    page: &mut String,
    known: &Known,
    node: NodeId,
    kind: &ViolationKind<usize>,
) -> Result<(), AllocError> {
    match kind {
        ViolationKind::LeftRecursion => push_recursion(alloc, page, known, node),
        ViolationKind::EmptyRound | ViolationKind::EmptyOperand => {
            push_emptiness(alloc, page, known, known.emptied(node))
        }
        ViolationKind::EmptyAlternative(k) => {
            push_emptiness(alloc, page, known, known.alternative(node, *k))
        }
        ViolationKind::AlternativesMeet(_, _, one, other) => {
            push_alternatives(alloc, page, known, node, *one, *other)?;
            push_both(alloc, page, known, *one, *other)
        }
        ViolationKind::AlternativeMeetsFollow(k, one, other) => {
            push_alternative(alloc, page, known, node, *k, *one)?;
            push_follow_met(alloc, page, known, node, *one, *other)
        }
        ViolationKind::RoundMeetsFollow(one, other) => {
            let part = known.round(node, *one);
            push_first(alloc, page, known, "a round", part, *one)?;
            push_follow_met(alloc, page, known, node, *one, *other)
        }
        ViolationKind::OperandMeetsOperators(start) => {
            let term = known.round(node, *start);
            push_first(alloc, page, known, "an operand", term, *start)?;
            push_operator(alloc, page, known, *start)
        }
        ViolationKind::FollowMeetsOperators(start) => {
            push_follow(alloc, page, known, node, *start)?;
            push_operator(alloc, page, known, *start)
        }
        ViolationKind::GapMeets(start) => push_gap_met(alloc, page, known, node, *start),
        ViolationKind::StepCostOver => push_line(
            page,
            "parsing could take that many steps per character; no text is lost because of it",
        ),
    }
}

/// Appends what follows, and what both begin with.
fn push_follow_met(
    alloc: Global,
    page: &mut String,
    known: &Known,
    node: NodeId,
    one: usize,
    other: usize,
) -> Result<(), AllocError> {
    push_follow(alloc, page, known, node, other)?;
    push_both(alloc, page, known, one, other)
}

/// Appends how a rule leads back to itself.
fn push_recursion(
    alloc: Global,
    page: &mut String,
    known: &Known,
    node: NodeId,
) -> Result<(), AllocError> {
    let Some(place) = place_in(known, node) else {
        return Ok(());
    };
    let way = recursion(alloc, known, RuleId::new(place.rule))?;
    let line = format!(in alloc; "it reaches itself again before it reads anything: {way}")?;
    push_line(page, line.as_str())
}

/// Appends how a node can be empty.
fn push_emptiness(
    alloc: Global,
    page: &mut String,
    known: &Known,
    node: NodeId,
) -> Result<(), AllocError> {
    let words = emptiness(alloc, known, node)?;
    let line = format!(in alloc; "it is empty when {words}")?;
    push_line(page, line.as_str())
}

/// Appends what a gap meets.
fn push_gap_met(
    alloc: Global,
    page: &mut String,
    known: &Known,
    node: NodeId,
    start: usize,
) -> Result<(), AllocError> {
    if start >= known.sets.starts().len() {
        push_line(page, "operators can begin with a character of the gap")?;
    } else if known.begins_term(node, start) {
        let term = known.round(node, start);
        push_first(alloc, page, known, "an operand", term, start)?;
    } else {
        push_follow(alloc, page, known, node, start)?;
    }
    push_gap(alloc, page, known, start)
}
