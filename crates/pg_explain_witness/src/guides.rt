//! Guides: what texts that may show a finding should begin with.

use crate::asks::Guide;
use crate::met::key_at;
use pg_explain_samples::{Basis, Field, Plan, Target, Task, Want, make_draft};
use pg_grammar_form::NodeId;
use pg_table::Table;
use std::alloc::{AllocError, Global};

/// The most characters of a text that become a guide.
const LONGEST_GUIDE: usize = 6;

/// The characters of a guide.
pub(crate) fn characters_of(
    alloc: Global,
    field: Field<'_>,
    guide: Guide,
) -> Result<Vec<char>, AllocError> {
    match guide {
        Guide::Character(c) => joined(alloc, &[], c),
        Guide::Key(start, next) => joined(alloc, key_of(field.basis, start), next),
        Guide::Symbol(number) => joined(alloc, symbol_of(field.table, number), None),
        Guide::Part(part, c) => begun_by(alloc, field, part, c),
    }
}

/// The key of a start; empty for a start without one.
fn key_of<'g>(basis: &'g Basis<'g>, start: usize) -> &'g [char] {
    match key_at(basis, start) {
        Some((key, _)) => key,
        None => &[],
    }
}

/// The symbol of an operator of the table; empty if there is no such operator.
fn symbol_of(table: &Table, number: usize) -> &[char] {
    match table.operators().get(number) {
        Some(operator) => operator.symbol(),
        None => &[],
    }
}

fn joined(alloc: Global, text: &[char], last: Option<char>) -> Result<Vec<char>, AllocError> {
    let mut guide = Vec::from_slice(alloc, text)?;
    if let Some(c) = last {
        guide.push(c)?;
    }
    Ok(guide)
}

/// The beginning of a text of the part that begins with the character.
fn begun_by(
    alloc: Global,
    field: Field<'_>,
    part: NodeId,
    c: char,
) -> Result<Vec<char>, AllocError> {
    let guide = [c];
    let plan = Plan {
        way: &[],
        target: Target::Stop,
        guide: &guide,
        spaced: false,
        seed: 0,
    };
    let node = Task::Node(part, Want::Guide);
    let mut text = make_draft(alloc, field, plan, Task::Start, node)?.text;
    text.truncate(LONGEST_GUIDE);
    if text.is_empty() {
        text.push(c)?;
    }
    Ok(text)
}
