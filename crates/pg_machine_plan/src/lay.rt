//! Laying a grammar out as code.
//!
//! Nobody relies on what is laid out here: whoever runs a plan has it judged first. So this owes nothing but that it ends, and a plan that is refused only
//! means that another machine does the work. The code of a node stands where `specs/Layout.antt` wants it: that of parts inside their node's, and that of a
//! rule's body once where trees are kept and once where they are hidden, if it is needed there.

use crate::instruction::{Instruction, Keep};
use crate::lay_arms::{arms_of, place_of};
use crate::lay_code::Laying;
use crate::lay_kinds::Columns;
use crate::lay_needs::{Needs, needs_of};
use crate::plan::Plan;
use pg_grammar_value::Grammar;
use std::alloc::{AllocError, Global};

/// The most tasks of a layout. An instruction takes a task or two.
const MOST_TASKS: usize = 200_000;
/// The most tables of a plan.
const MOST_TABLES: usize = 4_096;

/// A plan of the grammar. None where it has a form that isn't taken, or would be too large. The only error is running out of memory.
pub fn lay_out(alloc: Global, grammar: &Grammar) -> Result<Option<Plan>, AllocError> {
    let columns = Columns::of(alloc, grammar)?;
    let needs = needs_of(alloc, grammar, columns.each())?;
    let plan = laid(alloc, grammar, &columns, needs.as_slice());
    drop(columns);
    plan
}

/// The plan by these verdicts.
fn laid(
    alloc: Global,
    grammar: &Grammar,
    columns: &Columns,
    needs: &[Needs],
) -> Result<Option<Plan>, AllocError> {
    let mut laying = Laying::new(alloc, grammar, needs)?;
    let Some(entry) = begin(&mut laying)? else {
        return Ok(None);
    };
    if !ends(&mut laying)? || laying.gives_up || laying.tables > MOST_TABLES {
        return Ok(None);
    }
    finished(alloc, laying, columns, entry).map(Some)
}

/// Lays out what each plan begins with, and asks for the body of the start rule. Answers its label.
fn begin(laying: &mut Laying<'_>) -> Result<Option<usize>, AllocError> {
    let stop = laying.label()?;
    laying.set(stop);
    laying.put(Instruction::Stop)?;
    let fail = laying.label()?;
    laying.set(fail);
    laying.put(Instruction::Fail)?;
    let grammar = laying.grammar;
    let start = grammar.start_rule().index();
    match grammar.rules().get(start) {
        Some(rule) => Ok(Some(laying.body(Keep::Kept, start, rule.body)?)),
        None => Ok(None),
    }
}

/// Performs all tasks. Answers whether they came to an end.
fn ends(laying: &mut Laying<'_>) -> Result<bool, AllocError> {
    for _ in 0..MOST_TASKS {
        match laying.next_task() {
            Some(task) => laying.perform(task)?,
            None => return Ok(true),
        }
    }
    Ok(false)
}

/// The plan, with places for labels.
fn finished(
    alloc: Global,
    laying: Laying<'_>,
    columns: &Columns,
    entry: usize,
) -> Result<Plan, AllocError> {
    let labels = laying.labels.as_slice();
    let arms = arms_of(
        alloc,
        columns,
        labels,
        laying.ways.as_slice(),
        laying.tables,
    )?;
    let entry = place_of(labels, entry);
    let mut code = Vec::new(alloc);
    for instruction in laying.code.iter() {
        code.push(placed(labels, *instruction))?;
    }
    let Laying { stretches, .. } = laying;
    Ok(Plan::new(code, arms, stretches, entry))
}

/// The instruction with a place for its label.
fn placed(labels: &[usize], instruction: Instruction) -> Instruction {
    match instruction {
        Instruction::Jump(label) => Instruction::Jump(place_of(labels, label)),
        Instruction::Call(label) => Instruction::Call(place_of(labels, label)),
        Instruction::Mark(label) => Instruction::Mark(place_of(labels, label)),
        Instruction::Commit(label) => Instruction::Commit(place_of(labels, label)),
        Instruction::Again(label) => Instruction::Again(place_of(labels, label)),
        Instruction::Enter
        | Instruction::Read(_, _)
        | Instruction::Span(_, _)
        | Instruction::Pick(_)
        | Instruction::Return
        | Instruction::Open(_)
        | Instruction::Close(_, _)
        | Instruction::Hold
        | Instruction::Fold(_, _)
        | Instruction::Link
        | Instruction::FoldLinks(_, _)
        | Instruction::Release
        | Instruction::Rows(_)
        | Instruction::ReadPrefix(_)
        | Instruction::ReadPostfix(_, _, _)
        | Instruction::ReadInfix(_, _, _)
        | Instruction::Settle(_, _, _)
        | Instruction::Fail
        | Instruction::Stop => instruction,
    }
}
