//! Whether operators are those of a tree that fits a table.

ghost use Rattle.std.specs.Prelude.{◌≡◌, IfOk, option_map, map};
ghost use Rattle.pg_expand_fitting.specs.Steps.{IsJudged};
ghost use Rattle.pg_expand_fitting.specs.Judge.{judgement, judge_of, taken, placed_if, known_by, known_in as known_there, step_of};

use crate::judge::Judge;
use crate::known::known_in;
use crate::step::Step;
use pg_expand::Lookup;
use pg_grammar_value::AppliedOperator;
use pg_table::Table;
use std::alloc::{AllocError, Global};

/// The steps, from left to right, of the tree that fits the table and has these operators in reading order, if there is one. There is at most one if a symbol
/// and its side determine an operator, as in tables of a grammar (ours; the rows of Text.Parsec.Expr's `buildExpressionParser` derive the same trees).
///
/// Each operator is looked up once, waits once and is applied once.
pub fn fitting_steps<'a>(
    alloc: Global,
    table: &Table,
    read: &'a [AppliedOperator],
) -> Result<Option<Vec<Step<'a>>>, AllocError>
    ensures steps { IfOk result (λ found. option_map (λ steps. map step_of steps.items) found ≡ judgement (known_there table.now.operators) read.now) }
    ensures tree { IfOk result (λ found. IsJudged table.now.operators read.now (option_map (λ steps. map step_of steps.items) found)) }
{
    // Reading a table's operators gives the fact that each precedence is a digit.
    let _operators = table.operators();
    let lookup = Lookup::of(alloc, table)?;
    steps_by(alloc, &lookup, read)
}

/// As `fitting_steps`, with the look-up of the table's operators.
fn steps_by<'a>(
    alloc: Global,
    lookup: &Lookup,
    read: &'a [AppliedOperator],
) -> Result<Option<Vec<Step<'a>>>, AllocError>
    ensures { IfOk result (λ found. option_map (λ steps. map step_of steps.items) found ≡ judgement (known_by lookup.now) read.now) }
{
    let mut judge = Judge {
        waiting: Vec::new(alloc),
        last: None,
        steps: Vec::new(alloc),
    };
    for applied in read {
        if !take(&mut judge, lookup, applied)? {
            return Ok(None);
        }
    }
    Ok(Some(judge.finish()?))
}

/// Reads one operator more, and returns whether it may stand where it was read.
fn take<'a>(
    judge: &mut Judge<'a>,
    lookup: &Lookup,
    applied: &'a AppliedOperator,
) -> Result<bool, AllocError>
    ensures { IfOk result (λ b. taken b judge.new ≡ placed_if applied.now.fixity (known_by lookup.now applied.now) (judge_of judge.old)) }
{
    match known_in(lookup, applied) {
        Some(operator) => judge.place(applied.fixity, operator),
        None => Ok(false),
    }
}
