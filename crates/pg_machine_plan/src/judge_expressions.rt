//! Whether a stretch is that of an expression: the code of its rows around its term.

ghost use Rattle.std.specs.Prelude.{◌≡◌, ◌+◌, Some, slice_get, IfSome};
ghost use Rattle.std.specs.Bool.{OnTrue};
ghost use Rattle.pg_grammar_form.specs.declared.form.Form.TheVariants as form;
ghost use Rattle.pg_grammar_form.specs.declared.used.OperatorBuilders.{OperatorBuilders};
ghost use Rattle.pg_grammar_value.specs.Grammar.{Grammar};
ghost use Rattle.pg_machine_plan.specs.Judged.{IsShaped};
ghost use Rattle.pg_machine_plan.specs.Layout.{AreRows, IsRow};
ghost use Rattle.pg_machine_plan.specs.declared.instruction.Instruction.TheVariants.{Rows};

use crate::instruction::{Instruction, Keep, Stretch};
use crate::judge_code::{instruction, noted, stands};
use crate::judge_shapes::is_one;
use crate::plan::Plan;
use pg_grammar_form::NodeId;

/// An expression has the rows around its term after its first instruction, and ends where it is released.
pub(crate) fn is_expression(plan: &Plan, pc: usize, stretch: Stretch, term: NodeId) -> bool
    ensures { OnTrue result ((g : Grammar) (builders : OperatorBuilders) → IsShaped g plan.now pc stretch (form.Expression builders term)) }
{
    let end = stretch.end;
    let Some(rows) = rows_at(plan, pc) else {
        return false;
    };
    let Some(first) = pc.checked_add(1) else {
        return false;
    };
    let Some(out) = after_rows(plan, stretch.keep, stretch.node, term, rows, first) else {
        return false;
    };
    if is_one(out, end) {
        stands(plan, out, Instruction::Release)
    } else {
        false
    }
}

/// How many rows the expression has that begins there, if one does.
fn rows_at(plan: &Plan, pc: usize) -> Option<usize>
    ensures { IfSome result (λ rows. slice_get plan.now.code pc ≡ Some (Rows rows)) }
{
    let Some(Instruction::Rows(rows)) = instruction(plan, pc) else {
        return None;
    };
    Some(rows)
}

/// Where the code of so many rows ends, if it begins there. It goes from the term outwards.
fn after_rows(
    plan: &Plan,
    keep: Keep,
    node: NodeId,
    term: NodeId,
    rows: usize,
    first: usize,
) -> Option<usize>
    ensures { IfSome result (λ end. AreRows plan.now keep node term rows first end) }
{
    let mut head = first.checked_add(rows)?;
    let mut end = noted(plan, keep, term, head)?;
    for row in 0..rows {
        head = head.checked_sub(1)?;
        end = after_row(plan, keep, node, row, head, end)?;
    }
    Some(end)
}

/// Where a row ends that begins at the head, and whose tighter rows end there.
fn after_row(
    plan: &Plan,
    keep: Keep,
    node: NodeId,
    row: usize,
    head: usize,
    exit: usize,
) -> Option<usize>
    ensures row { IfSome result (λ end. IsRow plan.now keep node row head exit) }
    ensures end { IfSome result (λ end. end ≡ exit + 5) }
{
    let twice = row.checked_add(row)?;
    let rank = twice.checked_add(1)?;
    let end = exit.checked_add(5)?;
    if stands(plan, head, Instruction::ReadPrefix(row))
        && stands(plan, exit, Instruction::Settle(keep, node, twice))
        && stands(plan, exit + 1, Instruction::ReadPostfix(keep, node, row))
        && stands(plan, exit + 2, Instruction::ReadInfix(keep, node, row))
        && stands(plan, exit + 3, Instruction::Jump(head))
        && stands(plan, exit + 4, Instruction::Settle(keep, node, rank))
    {
        Some(end)
    } else {
        None
    }
}
