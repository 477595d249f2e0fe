//! The arms of tables, by the verdicts on their alternatives.

use crate::instruction::Arm;
use crate::lay_code::Way;
use crate::lay_kinds::Columns;
use crate::lay_needs::SLOTS;
use crate::verdict::Verdict;
use pg_grammar_form::NodeId;
use std::alloc::{AllocError, Global};

/// The arms of so many tables.
pub(crate) fn arms_of(
    alloc: Global,
    columns: &Columns,
    labels: &[usize],
    ways: &[Way],
    tables: usize,
) -> Result<Vec<Arm>, AllocError> {
    let none = Arm {
        target: 0,
        nodes: 0,
    };
    let mut arms = vec![in alloc; none; tables.saturating_mul(SLOTS)]?;
    for slot in 0..SLOTS {
        fill(arms.as_mut_slice(), slot, columns.at(slot), labels, ways);
    }
    Ok(arms)
}

/// Fills in the arms of all tables for one kind of next characters. Ways stand from the last alternative of a choice to the first.
fn fill(arms: &mut [Arm], slot: usize, column: &[Verdict], labels: &[usize], ways: &[Way]) {
    let mut arm = Arm {
        target: 0,
        nodes: 0,
    };
    for way in ways {
        if way.is_last {
            arm = there(labels, Some(way.otherwise));
        }
        arm = next_arm(verdict_on(column, way.node), labels, way, arm);
        if let Some(table) = way.table {
            put(arms, table, slot, arm, way.counted);
        }
    }
}

/// The arm of a way and those after it, from the arm of those.
fn next_arm(verdict: Verdict, labels: &[usize], way: &Way, others: Arm) -> Arm {
    match verdict {
        Verdict::Fails(nodes) => Arm {
            target: others.target,
            nodes: others.nodes.saturating_add(nodes),
        },
        Verdict::Takes => there(labels, way.plain.or(way.marked)),
        Verdict::Empty(_) => {
            if way.is_round {
                there(labels, way.marked)
            } else {
                there(labels, way.plain.or(way.marked))
            }
        }
        Verdict::Unknown => there(labels, way.marked.or(way.plain)),
    }
}

/// The arm to the place of a label.
fn there(labels: &[usize], label: Option<usize>) -> Arm {
    Arm {
        target: place_of(labels, label.unwrap_or(0)),
        nodes: 0,
    }
}

/// The place of a label.
pub(crate) fn place_of(labels: &[usize], label: usize) -> usize {
    labels.get(label).copied().unwrap_or(0)
}

/// The verdict on a node.
fn verdict_on(column: &[Verdict], node: NodeId) -> Verdict {
    column
        .get(node.index())
        .copied()
        .unwrap_or(Verdict::Unknown)
}

/// Puts an arm into a table, with so many nodes more.
fn put(arms: &mut [Arm], table: usize, slot: usize, arm: Arm, counted: usize) {
    let place = table.saturating_mul(SLOTS).saturating_add(slot);
    if let Some(found) = arms.get_mut(place) {
        *found = Arm {
            target: arm.target,
            nodes: arm.nodes.saturating_add(counted),
        };
    }
}
