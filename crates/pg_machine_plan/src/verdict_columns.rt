//! Verdicts on all nodes of a grammar.
//!
//! A column has a verdict for each node, for one thing that may come next. Verdicts are worked out from others, in any order, so each column on the way is
//! true, and nothing has to be proved about when to stop.

ghost use Rattle.std.specs.Prelude.{◌≡◌, ◌<◌, ℕ, Some, length, slice_get, IfOk};
ghost use Rattle.std.specs.Bool.{OnTrue};
ghost use Rattle.pg_grammar_value.specs.Grammar.{Grammar};
ghost use Rattle.pg_machine_plan.specs.Columns.{AreAlike, Follows};
ghost use Rattle.pg_machine_plan.specs.Verdicts.{form_verdict};
ghost use Rattle.pg_machine_plan.specs.declared.next.Next.{Next};
ghost use Rattle.pg_machine_plan.specs.declared.verdict.Verdict.{Verdict};

use crate::next::Next;
use crate::verdict::Verdict;
use crate::verdict_leaf::leaf_verdict;
use crate::verdict_node::node_verdict;
use pg_grammar_form::{Node, NodeId};
use pg_grammar_value::Grammar;
use std::alloc::{AllocError, Global};

/// A verdict for each node, for what comes next: all that follows. Each is so wherever this comes next in a text. The only error is running out of memory.
pub fn verdict_column(
    alloc: Global,
    grammar: &Grammar,
    next: Next,
) -> Result<Vec<Verdict>, AllocError>
    ensures { IfOk result (λ column. Follows grammar.now next column.items) }
{
    let mut column = untold(alloc, grammar.nodes().len())?;
    for _ in 0..=grammar.rules().len() {
        if !tell_all(grammar, next, &mut column) {
            break;
        }
    }
    Ok(column)
}

/// A column of so many verdicts that tells nothing.
fn untold(alloc: Global, count: usize) -> Result<Vec<Verdict>, AllocError>
    ensures { IfOk result (λ column. (g : Grammar) (next : Next) → Follows g next column.items) }
{
    let mut column = Vec::new(alloc);
    for _ in 0..count {
        column.push(Verdict::Unknown)?;
    }
    Ok(column)
}

/// Works out the verdicts of which nothing is told, from the last node to the first, since parts come after their nodes. Whether more is told then.
fn tell_all(grammar: &Grammar, next: Next, column: &mut [Verdict]) -> bool
    ensures { Follows grammar.now next column.old → Follows grammar.now next column.new }
{
    let mut told = false;
    for index in (0..column.len()).rev() {
        if tell(grammar, next, column, index) {
            told = true;
        }
    }
    told
}

/// Works out one verdict, if nothing is told of it. Whether more is told then.
fn tell(grammar: &Grammar, next: Next, column: &mut [Verdict], index: usize) -> bool
    requires { index < length column.old }
    ensures { Follows grammar.now next column.old → Follows grammar.now next column.new }
{
    if !column[index].is_unknown() {
        return false;
    }
    let verdict = node_verdict(grammar, column, next, NodeId::new(index));
    column[index] = verdict;
    !verdict.is_unknown()
}

/// The column for what comes next, from that for something else: the same, if no leaf tells them apart.
pub(crate) fn column_after(
    alloc: Global,
    grammar: &Grammar,
    last: Next,
    column: Vec<Verdict>,
    next: Next,
) -> Result<Vec<Verdict>, AllocError>
    requires { Follows grammar.now last column.items }
    ensures { IfOk result (λ column. Follows grammar.now next column.items) }
{
    if are_alike(grammar, last, next) {
        Ok(column)
    } else {
        drop(column);
        verdict_column(alloc, grammar, next)
    }
}

/// Whether no leaf tells them apart.
fn are_alike(grammar: &Grammar, one: Next, other: Next) -> bool
    ensures { OnTrue result (AreAlike grammar.now one other) }
{
    for (index, node) in grammar.nodes().iter().enumerate() {
        if !is_alike(grammar, NodeId::new(index), node, one, other) {
            return false;
        }
    }
    true
}

/// Whether this node doesn't tell them apart, if its parts don't.
fn is_alike(grammar: &Grammar, id: NodeId, node: &Node, one: Next, other: Next) -> bool
    requires { slice_get grammar.now.nodes id ≡ Some node.now }
    ensures { OnTrue result ((on : ℕ → Verdict) → form_verdict grammar.now on one node.now ≡ form_verdict grammar.now on other node.now) }
{
    let Some(leaf) = node.leaf() else {
        return true;
    };
    let said = leaf_verdict(grammar, id, leaf, one);
    said == leaf_verdict(grammar, id, leaf, other)
}
