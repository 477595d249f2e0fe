//! What stands in a plan's code, and which stretches it notes.

ghost use Rattle.std.specs.Prelude.{◌≡◌, ◌+◌, Some, option_copied, slice_get, IfSome};
ghost use Rattle.std.specs.Bool.{OnTrue};
ghost use Rattle.pg_machine_plan.specs.Judged.{PicksAt};
ghost use Rattle.pg_machine_plan.specs.Layout.{ComesTo, Notes, NotesAll};
ghost use Rattle.pg_machine_plan.specs.declared.instruction.Instruction.TheVariants.{Again, Call, Enter, Mark, Pick};

use crate::instruction::{Arm, Instruction, Keep};
use crate::next::{Next, arm_at};
use crate::plan::Plan;
use pg_grammar_form::{Node, NodeId, RuleId};
use pg_grammar_value::{Grammar, Rule};

/// The instruction at a place, if there is one.
pub(crate) fn instruction(plan: &Plan, pc: usize) -> Option<Instruction>
    ensures { result ≡ slice_get plan.now.code pc }
{
    plan.code().get(pc).copied()
}

/// Whether this instruction stands there.
pub(crate) fn stands(plan: &Plan, pc: usize, wanted: Instruction) -> bool
    ensures { OnTrue result (slice_get plan.now.code pc ≡ Some wanted) }
{
    match instruction(plan, pc) {
        Some(found) => is_same(found, wanted),
        None => false,
    }
}

/// Whether these are the same instruction. A derived comparison of so many kinds is dear to reason about.
fn is_same(found: Instruction, wanted: Instruction) -> bool
    ensures { OnTrue result (found ≡ wanted) }
{
    match wanted {
        Instruction::Enter => {
            let Instruction::Enter = found else {
                return false;
            };
            true
        }
        Instruction::Read(keep, node) => {
            let Instruction::Read(k, n) = found else {
                return false;
            };
            k == keep && n == node
        }
        Instruction::Span(keep, node) => {
            let Instruction::Span(k, n) = found else {
                return false;
            };
            k == keep && n == node
        }
        Instruction::Jump(wanted) => {
            let Instruction::Jump(there) = found else {
                return false;
            };
            there == wanted
        }
        Instruction::Pick(wanted) => {
            let Instruction::Pick(there) = found else {
                return false;
            };
            there == wanted
        }
        Instruction::Call(wanted) => {
            let Instruction::Call(there) = found else {
                return false;
            };
            there == wanted
        }
        Instruction::Return => {
            let Instruction::Return = found else {
                return false;
            };
            true
        }
        Instruction::Open(wanted) => {
            let Instruction::Open(there) = found else {
                return false;
            };
            there == wanted
        }
        Instruction::Close(keep, node) => {
            let Instruction::Close(k, n) = found else {
                return false;
            };
            k == keep && n == node
        }
        Instruction::Hold => {
            let Instruction::Hold = found else {
                return false;
            };
            true
        }
        Instruction::Fold(keep, node) => {
            let Instruction::Fold(k, n) = found else {
                return false;
            };
            k == keep && n == node
        }
        Instruction::Link => {
            let Instruction::Link = found else {
                return false;
            };
            true
        }
        Instruction::FoldLinks(keep, node) => {
            let Instruction::FoldLinks(k, n) = found else {
                return false;
            };
            k == keep && n == node
        }
        Instruction::Release => {
            let Instruction::Release = found else {
                return false;
            };
            true
        }
        Instruction::Rows(wanted) => {
            let Instruction::Rows(there) = found else {
                return false;
            };
            there == wanted
        }
        Instruction::ReadPrefix(wanted) => {
            let Instruction::ReadPrefix(there) = found else {
                return false;
            };
            there == wanted
        }
        Instruction::ReadPostfix(keep, node, number) => {
            let Instruction::ReadPostfix(k, n, m) = found else {
                return false;
            };
            k == keep && n == node && m == number
        }
        Instruction::ReadInfix(keep, node, number) => {
            let Instruction::ReadInfix(k, n, m) = found else {
                return false;
            };
            k == keep && n == node && m == number
        }
        Instruction::Settle(keep, node, number) => {
            let Instruction::Settle(k, n, m) = found else {
                return false;
            };
            k == keep && n == node && m == number
        }
        Instruction::Mark(wanted) => {
            let Instruction::Mark(there) = found else {
                return false;
            };
            there == wanted
        }
        Instruction::Commit(wanted) => {
            let Instruction::Commit(there) = found else {
                return false;
            };
            there == wanted
        }
        Instruction::Again(wanted) => {
            let Instruction::Again(there) = found else {
                return false;
            };
            there == wanted
        }
        Instruction::Fail => {
            let Instruction::Fail = found else {
                return false;
            };
            true
        }
        Instruction::Stop => {
            let Instruction::Stop = found else {
                return false;
            };
            true
        }
    }
}

/// Whether the code there is at the target, or jumps to it.
pub(crate) fn comes_to(plan: &Plan, target: usize, pc: usize) -> bool
    ensures { OnTrue result (ComesTo plan.now target pc) }
{
    pc == target || stands(plan, pc, Instruction::Jump(target))
}

/// Where the stretch ends that is noted for the node from this place on, if one is.
pub(crate) fn noted(plan: &Plan, keep: Keep, node: NodeId, pc: usize) -> Option<usize>
    ensures { IfSome result (λ end. Notes plan.now keep node pc end) }
{
    match plan.stretches().get(pc) {
        Some(Some(stretch)) if stretch.keep == keep && stretch.node == node => Some(stretch.end),
        Some(Some(_) | None) | None => None,
    }
}

/// Where the stretches for these nodes end that adjoin from this place on, if they do.
pub(crate) fn all_noted(plan: &Plan, keep: Keep, nodes: &[NodeId], pc: usize) -> Option<usize>
    ensures { IfSome result (λ end. NotesAll plan.now keep nodes.now pc end) }
{
    let mut end = pc;
    for node in nodes {
        end = noted(plan, keep, *node, end)?;
    }
    Some(end)
}

/// Where those end that adjoin after this place, if they do.
pub(crate) fn all_after(plan: &Plan, keep: Keep, nodes: &[NodeId], pc: usize) -> Option<usize>
    ensures { IfSome result (λ end. NotesAll plan.now keep nodes.now (pc + 1) end) }
{
    all_noted(plan, keep, nodes, pc.checked_add(1)?)
}

/// Where a mark goes on, if there is one at this place.
pub(crate) fn mark(plan: &Plan, pc: usize) -> Option<usize>
    ensures { IfSome result (λ target. slice_get plan.now.code pc ≡ Some (Mark target)) }
{
    let Some(Instruction::Mark(target)) = instruction(plan, pc) else {
        return None;
    };
    Some(target)
}

/// Where the stretch for a node ends that is noted after this place, if one is.
pub(crate) fn after(plan: &Plan, keep: Keep, node: NodeId, pc: usize) -> Option<usize>
    ensures { IfSome result (λ end. Notes plan.now keep node (pc + 1) end) }
{
    noted(plan, keep, node, pc.checked_add(1)?)
}

/// The arm of the table that is picked there, if one is.
pub(crate) fn picked(plan: &Plan, next: Next, pc: usize) -> Option<Arm>
    ensures { IfSome result (λ arm. PicksAt plan.now next pc arm) }
{
    arm_at(plan, table(plan, pc)?, next)
}

/// The table that is picked from there, if one is.
pub(crate) fn table(plan: &Plan, pc: usize) -> Option<usize>
    ensures { IfSome result (λ table. slice_get plan.now.code pc ≡ Some (Pick table)) }
{
    let Some(Instruction::Pick(table)) = instruction(plan, pc) else {
        return None;
    };
    Some(table)
}

/// Where a mark that is taken away after a round goes on, if that is so at this place.
pub(crate) fn again(plan: &Plan, pc: usize) -> Option<usize>
    ensures { IfSome result (λ target. slice_get plan.now.code pc ≡ Some (Again target)) }
{
    let Some(Instruction::Again(target)) = instruction(plan, pc) else {
        return None;
    };
    Some(target)
}

/// Where a call goes, if there is one at this place.
pub(crate) fn call(plan: &Plan, pc: usize) -> Option<usize>
    ensures { IfSome result (λ target. slice_get plan.now.code pc ≡ Some (Call target)) }
{
    let Some(Instruction::Call(target)) = instruction(plan, pc) else {
        return None;
    };
    Some(target)
}

/// Whether a span stands there, and so nothing else.
pub(crate) fn is_span(plan: &Plan, pc: usize) -> bool
    ensures { OnTrue result ((slice_get plan.now.code pc ≡ Some Enter) → ⊥) }
{
    let Some(Instruction::Span(_, _)) = instruction(plan, pc) else {
        return false;
    };
    true
}

/// The node with this number, if there is one.
pub(crate) fn node_at(grammar: &Grammar, id: NodeId) -> Option<&Node>
    ensures { option_copied result ≡ slice_get grammar.now.nodes id }
{
    grammar.nodes().get(id.index())
}

/// The rule with this number, if there is one.
pub(crate) fn rule_at(grammar: &Grammar, id: RuleId) -> Option<&Rule>
    ensures { option_copied result ≡ slice_get grammar.now.rules id }
{
    grammar.rules().get(id.index())
}
