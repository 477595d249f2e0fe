//! Findings at a node with a common cause, which are explained as one.
//!
//! They say that the same alternatives, the same repetition or the same expression meet the same thing, and differ only in the starts where they meet.

use crate::alternatives::{begin_alike, pairs};
use crate::headlines::gap;
use pg_explain_context::Known;
use pg_grammar_form::NodeId;
use pg_predict::{FindingsAt, ViolationKind};
use std::alloc::{AllocError, Global};

/// The most findings at a node that are looked at.
const MOST_AT_NODE: usize = 128;

/// What meets, and the starts where it does. If it meets operators or a gap, both starts are the same.
#[derive(Clone, Copy)]
pub(crate) struct Meeting {
    who: Who,
    pub(crate) one: usize,
    pub(crate) other: usize,
}

#[derive(Clone, Copy, PartialEq, Eq)]
enum Who {
    Alternatives,
    /// The alternative with this number meets what follows.
    Alternative(usize),
    Round,
    Operand,
    Follow,
    Gap(&'static str),
}

/// Findings with a common cause: the first of them, the starts where the others meet, and how many there are.
#[derive(Drop)]
pub(crate) struct Cause {
    pub(crate) kind: ViolationKind<usize>,
    pub(crate) also: Vec<Meeting>,
    pub(crate) count: usize,
}

/// The causes of the findings at a node, in the order of their first findings.
pub(crate) fn causes_of(
    alloc: Global,
    known: &Known,
    node: NodeId,
    at_node: &mut FindingsAt,
) -> Result<Vec<Cause>, AllocError> {
    let mut causes = Vec::new(alloc);
    for _ in 0..MOST_AT_NODE {
        match at_node.next() {
            Some(finding) => add(alloc, known, node, finding.into_kind(), &mut causes)?,
            None => break,
        }
    }
    Ok(causes)
}

/// Adds a finding to its cause, or makes a new cause of it.
fn add(
    alloc: Global,
    known: &Known,
    node: NodeId,
    kind: ViolationKind<usize>,
    causes: &mut Vec<Cause>,
) -> Result<(), AllocError> {
    let met = met_by(known, node, &kind);
    if let Some(met) = met {
        for cause in causes.iter_mut() {
            if shares(known, node, cause, met) {
                return join(known, node, cause, met);
            }
        }
    }
    let count = match met {
        Some(met) => findings(known, node, met),
        None => 1,
    };
    causes.push(Cause {
        kind,
        also: Vec::new(alloc),
        count,
    })?;
    Ok(())
}

/// Adds a finding to its cause, unless that has it already with the starts swapped.
fn join(known: &Known, node: NodeId, cause: &mut Cause, met: Meeting) -> Result<(), AllocError> {
    if is_told(known, node, cause, met) {
        return Ok(());
    }
    cause.count = cause.count.saturating_add(findings(known, node, met));
    cause.also.push(met)?;
    Ok(())
}

/// Whether a cause already has these two starts.
fn is_told(known: &Known, node: NodeId, cause: &Cause, met: Meeting) -> bool {
    let first = match met_by(known, node, &cause.kind) {
        Some(first) => same_starts(first, met),
        None => false,
    };
    first || cause.also.iter().any(|also| same_starts(*also, met))
}

fn same_starts(one: Meeting, other: Meeting) -> bool {
    (one.one == other.one && one.other == other.other)
        || (one.who == Who::Alternatives && one.one == other.other && one.other == other.one)
}

/// How many findings these starts account for.
fn findings(known: &Known, node: NodeId, met: Meeting) -> usize {
    match met.who {
        Who::Alternatives => pairs(known, node, met.one, met.other),
        Who::Alternative(_) | Who::Round | Who::Operand | Who::Follow | Who::Gap(_) => 1,
    }
}

/// Whether a meeting has this cause.
fn shares(known: &Known, node: NodeId, cause: &Cause, met: Meeting) -> bool {
    match met_by(known, node, &cause.kind) {
        Some(first) => {
            first.who == met.who
                && (met.who != Who::Alternatives
                    || begin_alike(known, node, (first.one, first.other), (met.one, met.other)))
        }
        None => false,
    }
}

/// The meeting that a finding is about, if it is about one.
pub(crate) fn met_by(known: &Known, node: NodeId, kind: &ViolationKind<usize>) -> Option<Meeting> {
    let (who, one, other) = match kind {
        ViolationKind::AlternativesMeet(_, _, one, other) => (Who::Alternatives, *one, *other),
        ViolationKind::AlternativeMeetsFollow(k, one, other) => {
            (Who::Alternative(*k), *one, *other)
        }
        ViolationKind::RoundMeetsFollow(one, other) => (Who::Round, *one, *other),
        ViolationKind::OperandMeetsOperators(start) => (Who::Operand, *start, *start),
        ViolationKind::FollowMeetsOperators(start) => (Who::Follow, *start, *start),
        ViolationKind::GapMeets(start) => (Who::Gap(gap(known, node, *start)), *start, *start),
        ViolationKind::LeftRecursion
        | ViolationKind::EmptyRound
        | ViolationKind::EmptyAlternative(_)
        | ViolationKind::EmptyOperand
        | ViolationKind::StepCostOver => return None,
    };
    Some(Meeting { who, one, other })
}
