//! Which next characters no leaf tells apart, and the verdicts for each kind of them.
//!
//! A column of verdicts follows from those on the leaves. Most characters of ASCII are of few kinds, so few columns are worked out.

use crate::lay_needs::SLOTS;
use crate::next::Next;
use crate::verdict::Verdict;
use crate::verdict_columns::verdict_column;
use crate::verdict_node::node_verdict;
use pg_grammar_form::{Form, Node, NodeId};
use pg_grammar_value::Grammar;
use std::alloc::{AllocError, Global};

/// How many verdicts on a leaf there are.
const VERDICTS: usize = 4;
/// How many pairs of a kind and a verdict there are.
const KEYS: usize = SLOTS * VERDICTS;

/// The verdicts on all nodes, for each kind of next characters.
#[derive(Drop)]
pub(crate) struct Columns {
    /// The kind of each next character, by its place in a table.
    kinds: Vec<usize>,
    /// A column for each kind.
    columns: Vec<Vec<Verdict>>,
}

impl Columns {
    /// The columns of a grammar.
    pub(crate) fn of(alloc: Global, grammar: &Grammar) -> Result<Columns, AllocError> {
        let kinds = kinds_of(alloc, grammar)?;
        let columns = columns_of(alloc, grammar, kinds.as_slice())?;
        Ok(Columns { kinds, columns })
    }

    /// A column for each kind.
    pub(crate) fn each(&self) -> &[Vec<Verdict>] {
        self.columns.as_slice()
    }

    /// The column for what has this place in a table.
    pub(crate) fn at(&self, slot: usize) -> &[Verdict] {
        let kind = self.kinds.get(slot).copied().unwrap_or(0);
        match self.columns.get(kind) {
            Some(column) => column.as_slice(),
            None => &[],
        }
    }
}

/// The kind of each next character. Kinds have numbers in the order in which they come.
fn kinds_of(alloc: Global, grammar: &Grammar) -> Result<Vec<usize>, AllocError> {
    let mut kinds = vec![in alloc; 0; SLOTS]?;
    for (index, node) in grammar.nodes().iter().enumerate() {
        if is_leaf(node) {
            tell_apart(grammar, NodeId::new(index), kinds.as_mut_slice());
        }
    }
    Ok(kinds)
}

/// Whether a node is a leaf.
fn is_leaf(node: &Node) -> bool {
    match node {
        Form::Leaf(_) => true,
        Form::Seq(_)
        | Form::Choice(_)
        | Form::Many(_)
        | Form::Chain(_, _, _, _)
        | Form::Rule(_)
        | Form::Expression(_, _)
        | Form::Around(_, _) => false,
    }
}

/// Makes several kinds of those which a leaf tells apart.
fn tell_apart(grammar: &Grammar, leaf: NodeId, kinds: &mut [usize]) {
    let mut numbers: [usize; KEYS] = [0; KEYS];
    let mut count: usize = 0;
    for (slot, kind) in kinds.iter_mut().enumerate() {
        let verdict = node_verdict(grammar, &[], Next::at(slot), leaf);
        let key = kind
            .saturating_mul(VERDICTS)
            .saturating_add(number_of(verdict));
        if let Some(number) = numbers.get_mut(key) {
            if *number == 0 {
                count = count.saturating_add(1);
                *number = count;
            }
            *kind = number.saturating_sub(1);
        }
    }
}

/// A number for a verdict on a leaf.
fn number_of(verdict: Verdict) -> usize {
    match verdict {
        Verdict::Unknown => 0,
        Verdict::Fails(_) => 1,
        Verdict::Empty(_) => 2,
        Verdict::Takes => 3,
    }
}

/// A column for each kind.
fn columns_of(
    alloc: Global,
    grammar: &Grammar,
    kinds: &[usize],
) -> Result<Vec<Vec<Verdict>>, AllocError> {
    let mut columns = Vec::new(alloc);
    for (slot, kind) in kinds.iter().enumerate() {
        if *kind == columns.len() {
            columns.push(verdict_column(alloc, grammar, Next::at(slot))?)?;
        }
    }
    Ok(columns)
}
