//! Alternatives that may meet a later one, so that not every two of a choice need be compared.
//!
//! An alternative is first compared with all later ones at once, by the union of their starts. Only if it meets the union is it
//! compared with each.
ghost use Rattle.std.specs.Prelude.{◌≡◌, ◌<◌, ℕ, true, length, IfOk, OnOk};
ghost use Rattle.pg_graph.specs.Marks.{is_marked};
ghost use Rattle.pg_predict_conditions.specs.Shown.{AreWellFormed};
ghost use Rattle.pg_predict_conditions.specs.Suspects.{AreParts, HasParts, MarkSuspects, MarkNode, AreSuspects};

use crate::meetings::first_meeting;
use pg_grammar_form::{Form, Node, NodeId};
use pg_grammar_value::Grammar;
use pg_graph_bits::BitSet;
use pg_sets::Sets;
use std::alloc::{AllocError, Global};

/// Marks on nodes: an alternative without a mark meets no later one. For each start, `meetings` has the starts that meet it.
pub(crate) fn suspects(
    alloc: Global,
    grammar: &Grammar,
    sets: &Sets,
    meetings: &[BitSet],
) -> Result<Vec<bool>, AllocError>
    requires { AreWellFormed grammar.now sets.now }
    ensures { IfOk result (λ marks. AreSuspects grammar.now sets.now meetings.now marks.items) }
{
    let mut marks = vec![in alloc; false; grammar.nodes().len()]?;
    for node in grammar.nodes() {
        mark_node(alloc, sets, meetings, node, &mut marks)?;
    }
    Ok(marks)
}

/// Marks the alternatives that may meet a later one, if the node is a choice.
fn mark_node(
    alloc: Global,
    sets: &Sets,
    meetings: &[BitSet],
    node: &Node,
    marks: &mut Vec<bool>,
) -> Result<(), AllocError>
    requires { HasParts sets.now (length marks.old.items) node.now }
    ensures marked { OnOk result (MarkNode sets.now meetings.now node.now marks.new.items) }
    ensures long { OnOk result (length marks.new.items ≡ length marks.old.items) }
    ensures more { OnOk result ((p : ℕ) → is_marked marks.old.items p ≡ true → is_marked marks.new.items p ≡ true) }
{
    match node {
        Form::Choice(parts) => mark_suspects(alloc, sets, meetings, parts.as_slice(), marks),
        Form::Many(_)
        | Form::Chain(_, _, _, _)
        | Form::Leaf(_)
        | Form::Expression(_, _)
        | Form::Seq(_)
        | Form::Rule(_)
        | Form::Around(_, _) => Ok(()),
    }
}

/// Marks those of these alternatives that may meet a later one.
fn mark_suspects(
    alloc: Global,
    sets: &Sets,
    meetings: &[BitSet],
    parts: &[NodeId],
    marks: &mut Vec<bool>,
) -> Result<(), AllocError>
    requires { AreParts sets.now (length marks.old.items) parts.now }
    ensures marked { OnOk result (MarkSuspects sets.now meetings.now parts.now marks.new.items) }
    ensures long { OnOk result (length marks.new.items ≡ length marks.old.items) }
    ensures more { OnOk result ((p : ℕ) → is_marked marks.old.items p ≡ true → is_marked marks.new.items p ≡ true) }
{
    let mut after = BitSet::new(alloc, sets.starts().len())?;
    let mut next = parts.len();
    while next > 0 {
        next -= 1;
        let part = parts[next];
        let first = sets.first(part);
        mark_where(
            first_meeting(meetings, first, &after).is_some(),
            part.index(),
            marks,
        );
        after.unite(first);
    }
    Ok(())
}

/// Marks a number if `holds`.
fn mark_where(holds: bool, number: usize, marks: &mut Vec<bool>)
    requires { number < length marks.old.items }
    ensures long { length marks.new.items ≡ length marks.old.items }
    ensures more { (p : ℕ) → is_marked marks.old.items p ≡ true → is_marked marks.new.items p ≡ true }
    ensures marked { holds ≡ true → is_marked marks.new.items number ≡ true }
{
    if holds {
        marks[number] = true;
    }
}
