//! Whether a plan is laid out for a grammar.
//!
//! Whoever lays a plan out owes nothing: a plan that isn't right is refused here. A plan that is right may be refused too, where verdicts tell less than is so.

ghost use Rattle.std.specs.Prelude.{◌≡◌, ◌<◌, ℕ, IfOk, OnOk};
ghost use Rattle.std.specs.Bool.{OnTrue};
ghost use Rattle.pg_machine_plan.specs.Columns.{next_at};
ghost use Rattle.pg_machine_plan.specs.declared.judge_plans.PlanFault.TheVariants.{Memory};
ghost use Rattle.pg_machine_plan.specs.Judged.{BeginsRight, HasArmsAt, HasShape, IsRightFor};

use crate::instruction::{Instruction, Keep};
use crate::judge_arms::has_arms;
use crate::judge_code::{rule_at, stands};
use crate::judge_shapes::{has_shapes, is_body};
use crate::next::Next;
use crate::plan::Plan;
use crate::verdict_columns::{column_after, verdict_column};
use pg_grammar_value::Grammar;
use std::alloc::{AllocError, Global};
use thiserror::Error;

/// Why a plan isn't run.
#[derive(Debug, Drop, Error)]
pub enum PlanFault {
    /// It isn't laid out for the grammar, or that can't be told.
    #[error("not laid out for the grammar")]
    NotLaidOut,
    /// Memory ran out.
    #[error("out of memory")]
    Memory,
}

impl From<AllocError> for PlanFault {
    ghost from_gives = { λ _ e. e ≡ Memory };

    fn from(_e: AllocError) -> PlanFault {
        PlanFault::Memory
    }
}

/// Judges a plan: it is right for the grammar, or it is refused. It takes memory for a verdict on each node.
pub fn judge(alloc: Global, grammar: &Grammar, plan: &Plan) -> Result<(), PlanFault>
    ensures { OnOk result (IsRightFor grammar.now plan.now) }
{
    if !begins_right(grammar, plan) {
        return Err(PlanFault::NotLaidOut);
    }
    if !has_shapes(grammar, plan) {
        return Err(PlanFault::NotLaidOut);
    }
    let right = has_all_arms(alloc, grammar, plan)?;
    if right {
        Ok(())
    } else {
        Err(PlanFault::NotLaidOut)
    }
}

/// Whether a run over a text begins at the start rule's body, and stops after it.
fn begins_right(grammar: &Grammar, plan: &Plan) -> bool
    ensures { OnTrue result (BeginsRight grammar.now plan.now) }
{
    match rule_at(grammar, grammar.start_rule()) {
        Some(start) => {
            is_body(plan, Keep::Kept, start.body, plan.entry())
                && stands(plan, 0, Instruction::Stop)
        }
        None => false,
    }
}

/// Whether the arms of all tables are right, whatever comes next.
fn has_all_arms(alloc: Global, grammar: &Grammar, plan: &Plan) -> Result<bool, AllocError>
    ensures { IfOk result (λ right. OnTrue right ((k : ℕ) → k < 130 → (pc : ℕ) → HasArmsAt grammar.now plan.now (next_at k) pc)) }
{
    let mut last = Next::at(0);
    let mut column = verdict_column(alloc, grammar, last)?;
    for slot in 0..130 {
        let next = Next::at(slot);
        column = column_after(alloc, grammar, last, column, next)?;
        last = next;
        if !has_arms(grammar, plan, column.as_slice(), next) {
            return Ok(false);
        }
    }
    Ok(true)
}
