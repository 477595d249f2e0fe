//! The findings of a grammar, by the forms where they stand.
//!
//! Findings of one condition at one form count once, as for a choice in which several alternatives meet.

use pg_explain_changes::Trouble;
use pg_file_items::Span;
use pg_grammar_form::NodeId;
use pg_predict::{Broken, Refused, ViolationKind, condition_number};
use std::alloc::{AllocError, Global};

/// The most findings at a node that are looked at.
const MOST: usize = 1_000;

/// A condition that is broken at a node, and the form that was written for the node.
#[derive(Clone, Copy)]
pub struct Found {
    pub broken: Broken,
    pub span: Span,
}

impl Found {
    /// Whether one of these has the same condition at the same form.
    pub(crate) fn is_among(&self, all: &[Found]) -> bool {
        for other in all {
            if other.broken.condition == self.broken.condition && other.span == self.span {
                return true;
            }
        }
        false
    }
}

/// What a change would have to cure, if some change may.
pub(crate) fn trouble_of(kind: &ViolationKind<usize>) -> Option<Trouble> {
    match kind {
        ViolationKind::LeftRecursion => Some(Trouble::LeftRecursion),
        ViolationKind::EmptyRound => Some(Trouble::EmptyRound),
        ViolationKind::EmptyAlternative(k) => Some(Trouble::EmptyAlternative(*k)),
        ViolationKind::AlternativesMeet(j, k, _, _) => Some(Trouble::AlternativesMeet(*j, *k)),
        ViolationKind::AlternativeMeetsFollow(k, _, _) => Some(Trouble::AlternativeMeetsFollow(*k)),
        ViolationKind::RoundMeetsFollow(_, _) => Some(Trouble::RoundMeetsFollow),
        ViolationKind::EmptyOperand
        | ViolationKind::OperandMeetsOperators(_)
        | ViolationKind::FollowMeetsOperators(_)
        | ViolationKind::GapMeets(_)
        | ViolationKind::StepCostOver => None,
    }
}

/// The finding of a condition at a node for which this form was written.
pub(crate) fn found_at(node: NodeId, span: Span, condition: u8) -> Found {
    Found {
        broken: Broken { node, condition },
        span,
    }
}

/// The findings of a grammar whose nodes have these spans. Each condition counts once for a node. Fails where memory runs out.
pub fn findings(
    alloc: Global,
    refused: &Refused,
    spans: &[Span],
) -> Result<Vec<Found>, AllocError> {
    let mut found = Vec::new(alloc);
    for (number, span) in spans.iter().enumerate() {
        push_node(alloc, refused, NodeId::new(number), *span, &mut found)?;
    }
    Ok(found)
}

/// Adds the findings at a node.
fn push_node(
    alloc: Global,
    refused: &Refused,
    node: NodeId,
    span: Span,
    found: &mut Vec<Found>,
) -> Result<(), AllocError> {
    if node.index() >= refused.grammar().nodes().len() {
        return Ok(());
    }
    let mut findings = refused.findings_at(node);
    let mut last = 0;
    for _ in 0..MOST {
        let Some(finding) = findings.next() else {
            return Ok(());
        };
        let condition = condition_number(finding.kind());
        if condition != last {
            found.push(found_at(node, span, condition))?;
        }
        last = condition;
    }
    // The findings that come after those of alternatives that meet weren't reached, so one of them is assumed.
    found.push(found_at(node, span, 5))?;
    Ok(())
}
