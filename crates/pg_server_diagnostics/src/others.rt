//! The other places that a finding names: alternatives, a repeated part, operands.

use crate::diagnostic::Other;
use crate::findings::span_of;
use pg_file_items::Span;
use pg_grammar_form::{Form, NodeId};
use pg_predict::{Finding, Refused, Texts, ViolationKind};
use std::alloc::{AllocError, Global};

/// The other places of a finding: the alternatives that it names, each with its start if it meets something there, and the part of a repetition or of an expression.
pub(crate) fn others_of(
    alloc: Global,
    refused: &Refused,
    spans: &[Span],
    texts: &Texts,
    finding: &Finding,
) -> Result<Vec<Other>, AllocError> {
    let node = finding.node();
    match finding.kind() {
        ViolationKind::AlternativesMeet(j, k, one, other) => {
            let first = alternative(alloc, refused, spans, node, *j, texts.start(*one))?;
            let second = alternative(alloc, refused, spans, node, *k, texts.start(*other))?;
            pair_of(alloc, first, second)
        }
        ViolationKind::AlternativeMeetsFollow(k, one, _) => {
            let start = texts.start(*one);
            one_of(alloc, alternative(alloc, refused, spans, node, *k, start)?)
        }
        ViolationKind::EmptyAlternative(k) => one_of(
            alloc,
            alternative(alloc, refused, spans, node, *k, "")?,
        ),
        ViolationKind::EmptyRound | ViolationKind::RoundMeetsFollow(_, _) => {
            part_of(alloc, refused, spans, node, "the repeated part")
        }
        ViolationKind::EmptyOperand | ViolationKind::OperandMeetsOperators(_) => {
            part_of(alloc, refused, spans, node, "the operand")
        }
        ViolationKind::LeftRecursion
        | ViolationKind::FollowMeetsOperators(_)
        | ViolationKind::GapMeets(_)
        | ViolationKind::StepCostOver => Ok(Vec::new(alloc)),
    }
}

/// The alternative of a choice with this number, counting from 1, which can begin with this start; nothing is said of a start that is empty.
fn alternative(
    alloc: Global,
    refused: &Refused,
    spans: &[Span],
    choice: NodeId,
    number: usize,
    start: &str,
) -> Result<Other, AllocError> {
    let span = span_of(spans, alternative_node(refused, choice, number));
    let words = alternative_words(alloc, number, start)?;
    Ok(Other { span, words })
}

fn alternative_words(alloc: Global, number: usize, start: &str) -> Result<String, AllocError> {
    if start.is_empty() {
        format!(in alloc; "alternative {number}")
    } else {
        format!(in alloc; "alternative {number} can begin with {start}")
    }
}

/// The node of the alternative with this number; the choice itself if there is none.
fn alternative_node(refused: &Refused, choice: NodeId, number: usize) -> NodeId {
    match refused.grammar().nodes().get(choice.index()) {
        Some(Form::Choice(parts)) => match parts.as_slice().get(number.saturating_sub(1)) {
            Some(part) => *part,
            None => choice,
        },
        Some(
            Form::Leaf(_)
            | Form::Seq(_)
            | Form::Many(_)
            | Form::Chain(_, _, _, _)
            | Form::Rule(_)
            | Form::Expression(_, _)
            | Form::Around(_, _),
        )
        | None => choice,
    }
}

/// The part of a repetition, the operand of a chain or the term of an expression, with these words.
fn part_of(
    alloc: Global,
    refused: &Refused,
    spans: &[Span],
    node: NodeId,
    words: &str,
) -> Result<Vec<Other>, AllocError> {
    match part_node(refused, node) {
        Some(part) => {
            let words = String::from_str(alloc, words)?;
            let span = span_of(spans, part);
            one_of(alloc, Other { span, words })
        }
        None => Ok(Vec::new(alloc)),
    }
}

/// That part's node.
fn part_node(refused: &Refused, node: NodeId) -> Option<NodeId> {
    match refused.grammar().nodes().get(node.index()) {
        Some(Form::Many(part) | Form::Chain(_, _, part, _) | Form::Expression(_, part)) => Some(
            *part,
        ),
        Some(Form::Leaf(_) | Form::Seq(_) | Form::Choice(_) | Form::Rule(_) | Form::Around(_, _))
        | None => None,
    }
}

fn one_of(alloc: Global, other: Other) -> Result<Vec<Other>, AllocError> {
    let mut others = Vec::new(alloc);
    others.push(other)?;
    Ok(others)
}

fn pair_of(alloc: Global, first: Other, second: Other) -> Result<Vec<Other>, AllocError> {
    let mut others = one_of(alloc, first)?;
    others.push(second)?;
    Ok(others)
}
