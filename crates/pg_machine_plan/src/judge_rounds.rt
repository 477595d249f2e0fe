//! Whether the arms at the head of a loop go past it, or into a round.

ghost use Rattle.std.specs.Bool.{OnTrue};
ghost use Rattle.pg_machine_plan.specs.Judged.{IsLoopArm, IsMarkedRound, IsRound, LeadsBack};
ghost use Rattle.pg_machine_plan.specs.Layout.{FoldsBack};

use crate::instruction::{Arm, Instruction, Keep};
use crate::judge_code::{again, all_after, all_noted, comes_to, stands};
use crate::plan::Plan;
use crate::verdict::Verdict;
use pg_grammar_form::NodeId;

/// How code leads back to the head of a loop.
#[derive(Clone, Copy)]
pub(crate) enum Way {
    /// It is there, or jumps there: a repetition.
    Jumps,
    /// It folds the trees of the chain at this node before it jumps there.
    Folds(NodeId),
}

/// Whether the arm at the head of a loop is right, by the verdict on the first node of a round.
pub(crate) fn goes_round(
    plan: &Plan,
    verdict: Verdict,
    keep: Keep,
    head: usize,
    out: usize,
    way: &Way,
    parts: &[NodeId],
    arm: Arm,
) -> bool
    ensures { OnTrue result (IsLoopArm plan.now verdict keep head out way.now parts.now arm) }
{
    match verdict {
        Verdict::Fails(nodes) => arm.nodes == nodes && arm.target == out,
        Verdict::Takes => {
            arm.nodes == 0
                && (is_round(plan, keep, head, way, parts, arm.target)
                    || is_marked_round(plan, keep, head, out, way, parts, arm.target))
        }
        Verdict::Empty(_) | Verdict::Unknown => {
            arm.nodes == 0 && is_marked_round(plan, keep, head, out, way, parts, arm.target)
        }
    }
}

/// Whether a round of these nodes begins there, and leads back to the head.
fn is_round(plan: &Plan, keep: Keep, head: usize, way: &Way, parts: &[NodeId], pc: usize) -> bool
    ensures { OnTrue result (IsRound plan.now keep head way.now parts.now pc) }
{
    match all_noted(plan, keep, parts, pc) {
        Some(exit) => leads_back(plan, keep, head, way, exit),
        None => false,
    }
}

/// Whether a mark for past the loop stands there, and then such a round, which goes on only if it consumed something.
fn is_marked_round(
    plan: &Plan,
    keep: Keep,
    head: usize,
    out: usize,
    way: &Way,
    parts: &[NodeId],
    pc: usize,
) -> bool
    ensures { OnTrue result (IsMarkedRound plan.now keep head out way.now parts.now pc) }
{
    let Some(exit) = all_after(plan, keep, parts, pc) else {
        return false;
    };
    let Some(next) = again(plan, exit) else {
        return false;
    };
    stands(plan, pc, Instruction::Mark(out)) && leads_back(plan, keep, head, way, next)
}

/// Whether the code there leads back to the head.
fn leads_back(plan: &Plan, keep: Keep, head: usize, way: &Way, pc: usize) -> bool
    ensures { OnTrue result (LeadsBack plan.now keep head way.now pc) }
{
    match way {
        Way::Jumps => comes_to(plan, head, pc),
        Way::Folds(node) => folds_back(plan, keep, *node, head, pc),
    }
}

/// Whether the trees of the chain at a node are folded there, and then its head comes.
fn folds_back(plan: &Plan, keep: Keep, node: NodeId, head: usize, pc: usize) -> bool
    ensures { OnTrue result (FoldsBack plan.now keep node head pc) }
{
    match pc.checked_add(1) {
        Some(next) => {
            stands(plan, pc, Instruction::Fold(keep, node))
                && stands(plan, next, Instruction::Jump(head))
        }
        None => false,
    }
}
