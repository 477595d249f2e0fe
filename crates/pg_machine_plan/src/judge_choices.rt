//! Whether the code at an arm tries alternatives in order.

ghost use Rattle.std.specs.Prelude.{◌≡◌, ◌+◌, [], ℕ, List, true, IfSome};
ghost use Rattle.std.specs.Bool.{OnTrue};
ghost use Rattle.std.specs.Option.{option_map_or};
ghost use Rattle.pg_grammar_value.specs.Grammar.{Grammar};
ghost use Rattle.pg_machine_plan.specs.Columns.{IsColumn};
ghost use Rattle.pg_machine_plan.specs.Judged.{IsEntered, IsMarked, IsSole, TriesAt, TriesFirst};
ghost use Rattle.pg_machine_plan.specs.declared.judge_choices.Tried.TheVariants.{GoesOn, Wrong};

use crate::instruction::{Arm, Instruction, Keep};
use crate::judge_code::{after, comes_to, mark, noted, picked, stands};
use crate::next::Next;
use crate::plan::Plan;
use crate::verdict::Verdict;
use crate::verdict_node::on;
use pg_grammar_form::NodeId;

/// What the code at an arm does with the first alternative.
#[derive(Clone, Copy)]
pub(crate) enum Tried {
    /// It tries that, and no other.
    Ends,
    /// It tries the others at this arm.
    GoesOn(Arm),
    /// It isn't laid out for it.
    Wrong,
}

/// Whether the code at an arm tries these alternatives in order where this comes next, and then goes on at the end.
pub(crate) fn tries(
    plan: &Plan,
    column: &[Verdict],
    next: Next,
    keep: Keep,
    end: usize,
    arm: Arm,
    parts: &[NodeId],
) -> bool
    ensures { OnTrue result ((g : Grammar) → IsColumn g next column.now → TriesAt g plan.now keep end next arm parts.now) }
{
    let mut at = arm;
    let mut rest = parts;
    while let Some((first, others)) = rest.split_first() {
        match try_first(plan, column, next, keep, end, at, *first, others.is_empty()) {
            Tried::Ends => return true,
            Tried::GoesOn(other) => at = other,
            Tried::Wrong => return false,
        }
        rest = others;
    }
    at.nodes == 0 && stands(plan, at.target, Instruction::Fail)
}

/// What the code at an arm does with an alternative, which may be the last. One that fails at once has to be passed by.
fn try_first(
    plan: &Plan,
    column: &[Verdict],
    next: Next,
    keep: Keep,
    end: usize,
    arm: Arm,
    part: NodeId,
    is_last: bool,
) -> Tried
    ensures { (ps : List ℕ) → (is_last ≡ true → ps ≡ []) → TriesFirst plan.now column.now next keep end arm part ps result }
{
    match on(column, part) {
        Verdict::Fails(nodes) => goes_on(passed_by(arm, nodes)),
        Verdict::Takes => enter(plan, next, keep, end, arm, part, true),
        Verdict::Empty(_) => enter(plan, next, keep, end, arm, part, true),
        Verdict::Unknown => enter(plan, next, keep, end, arm, part, is_last),
    }
}

/// What the code at an arm does with an alternative that has to be tried. It has to be under a mark, unless it is sure that no other has to be tried.
fn enter(
    plan: &Plan,
    next: Next,
    keep: Keep,
    end: usize,
    arm: Arm,
    part: NodeId,
    is_sure: bool,
) -> Tried
    ensures { IsEntered plan.now next keep end arm part is_sure result }
{
    match marked(plan, next, keep, end, arm, part) {
        Some(other) => Tried::GoesOn(other),
        None => {
            if is_sure && is_sole(plan, keep, end, arm, part) {
                Tried::Ends
            } else {
                Tried::Wrong
            }
        }
    }
}

/// It goes on at the arm, if there is one.
fn goes_on(arm: Option<Arm>) -> Tried
    ensures { result ≡ option_map_or GoesOn arm Wrong }
{
    match arm {
        Some(arm) => Tried::GoesOn(arm),
        None => Tried::Wrong,
    }
}

/// The arm for the others, where one is passed by of which so many nodes are counted.
fn passed_by(arm: Arm, nodes: usize) -> Option<Arm>
    ensures { IfSome result (λ other. (other.target ≡ arm.target) × (nodes + other.nodes ≡ arm.nodes)) }
{
    Some(Arm {
        target: arm.target,
        nodes: arm.nodes.checked_sub(nodes)?,
    })
}

/// Whether the code at the arm tries the alternative without a mark, and no other after it.
fn is_sole(plan: &Plan, keep: Keep, end: usize, arm: Arm, part: NodeId) -> bool
    ensures { OnTrue result (IsSole plan.now keep end arm part) }
{
    match noted(plan, keep, part, arm.target) {
        Some(exit) => arm.nodes == 0 && comes_to(plan, end, exit),
        None => false,
    }
}

/// The arm at which the others are tried, if the code at this one tries the alternative under a mark.
fn marked(plan: &Plan, next: Next, keep: Keep, end: usize, arm: Arm, part: NodeId) -> Option<Arm>
    ensures { IfSome result (λ other. IsMarked plan.now next keep end arm part other) }
{
    let others = mark(plan, arm.target)?;
    let exit = after(plan, keep, part, arm.target)?;
    if arm.nodes == 0 && stands(plan, exit, Instruction::Commit(end)) {
        picked(plan, next, others)
    } else {
        None
    }
}
