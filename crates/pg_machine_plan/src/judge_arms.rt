//! Whether the arms of a plan's tables are right where this comes next.

ghost use Rattle.std.specs.Prelude.{◌≡◌, ℕ, Some, slice_get};
ghost use Rattle.std.specs.Bool.{OnTrue};
ghost use Rattle.pg_grammar_form.specs.declared.form.Form.TheVariants as form;
ghost use Rattle.pg_grammar_form.specs.declared.used.ChainBuilder.{ChainBuilder};
ghost use Rattle.pg_grammar_value.specs.Grammar.{Grammar};
ghost use Rattle.pg_machine_plan.specs.Columns.{IsColumn, Wherever};
ghost use Rattle.pg_machine_plan.specs.Judged.{HasArm, HasArmsAt, HasChainArm, HasChoiceArm, HasLinkArm, HasManyArm};
ghost use Rattle.pg_machine_plan.specs.Plans.{program};

use crate::instruction::{Arm, Stretch};
use crate::judge_choices::tries;
use crate::judge_code::{after, is_span, node_at, picked};
use crate::judge_rounds::{Way, goes_round};
use crate::next::Next;
use crate::plan::Plan;
use crate::verdict::Verdict;
use crate::verdict_node::on;
use pg_grammar_form::{Form, Node, NodeId, Side};
use pg_grammar_value::Grammar;

/// Whether the arms of all tables are right where this comes next, by a column of verdicts for it.
pub(crate) fn has_arms(grammar: &Grammar, plan: &Plan, column: &[Verdict], next: Next) -> bool
    requires { IsColumn grammar.now next column.now }
    ensures { OnTrue result ((pc : ℕ) → HasArmsAt grammar.now plan.now next pc) }
{
    for (pc, stretch) in plan.stretches().iter().enumerate() {
        if !has_arm_at(grammar, plan, column, next, pc, stretch) {
            return false;
        }
    }
    true
}

/// Whether the arm of the stretch that begins there is right, if one is noted.
fn has_arm_at(
    grammar: &Grammar,
    plan: &Plan,
    column: &[Verdict],
    next: Next,
    pc: usize,
    noted: &Option<Stretch>,
) -> bool
    requires column { IsColumn grammar.now next column.now }
    requires noted { slice_get plan.now.stretches pc ≡ Some noted.now }
    ensures { OnTrue result (HasArmsAt grammar.now plan.now next pc) }
{
    let Some(stretch) = noted else {
        return true;
    };
    match node_at(grammar, stretch.node) {
        Some(node) => has_arm(plan, column, next, pc, *stretch, node),
        None => false,
    }
}

/// Whether the arm of a stretch is right, if the stretch is for this node. Most forms have none.
fn has_arm(
    plan: &Plan,
    column: &[Verdict],
    next: Next,
    pc: usize,
    stretch: Stretch,
    node: &Node,
) -> bool
    ensures { OnTrue result ((g : Grammar) → IsColumn g next column.now → Wherever next (λ text a. HasArm (program g plan.now text) a pc stretch node.now)) }
{
    match node {
        Form::Choice(parts) => has_choice_arm(plan, column, next, pc, stretch, parts.as_slice()),
        Form::Many(part) => has_many_arm(plan, column, next, pc, stretch, *part),
        Form::Chain(side, _, operand, separator) => {
            has_side_arm(plan, column, next, pc, stretch, *side, *operand, *separator)
        }
        Form::Leaf(_)
        | Form::Seq(_)
        | Form::Rule(_)
        | Form::Expression(_, _)
        | Form::Around(_, _) => true,
    }
}

/// That of a choice. Its arm counts the choice too.
fn has_choice_arm(
    plan: &Plan,
    column: &[Verdict],
    next: Next,
    pc: usize,
    stretch: Stretch,
    parts: &[NodeId],
) -> bool
    ensures { OnTrue result ((g : Grammar) → IsColumn g next column.now → Wherever next (λ text a. HasChoiceArm (program g plan.now text) a pc stretch parts.now)) }
{
    let Some(arm) = picked(plan, next, pc) else {
        return false;
    };
    let Some(nodes) = arm.nodes.checked_sub(1) else {
        return false;
    };
    let others = Arm {
        target: arm.target,
        nodes,
    };
    tries(plan, column, next, stretch.keep, stretch.end, others, parts)
}

/// That of a repetition. One that is a span has no table.
fn has_many_arm(
    plan: &Plan,
    column: &[Verdict],
    next: Next,
    pc: usize,
    stretch: Stretch,
    part: NodeId,
) -> bool
    ensures { OnTrue result ((g : Grammar) → IsColumn g next column.now → Wherever next (λ text a. HasManyArm (program g plan.now text) a pc stretch part)) }
{
    if is_span(plan, pc) {
        return true;
    }
    let Some(head) = pc.checked_add(1) else {
        return false;
    };
    match picked(plan, next, head) {
        Some(arm) => {
            let verdict = on(column, part);
            goes_round(
                plan,
                verdict,
                stretch.keep,
                head,
                stretch.end,
                &Way::Jumps,
                &[part],
                arm,
            )
        }
        None => false,
    }
}

/// That of a chain, whose last instruction is after the loop.
fn has_chain_arm(
    plan: &Plan,
    column: &[Verdict],
    next: Next,
    pc: usize,
    stretch: Stretch,
    operand: NodeId,
    separator: NodeId,
) -> bool
    ensures { OnTrue result ((g : Grammar) → IsColumn g next column.now → Wherever next (λ text a. HasChainArm (program g plan.now text) a pc stretch operand separator)) }
{
    let Some(head) = after(plan, stretch.keep, operand, pc) else {
        return false;
    };
    let Some(out) = stretch.end.checked_sub(1) else {
        return false;
    };
    match picked(plan, next, head) {
        Some(arm) => {
            let verdict = on(column, separator);
            let way = &Way::Folds(stretch.node);
            goes_round(
                plan,
                verdict,
                stretch.keep,
                head,
                out,
                way,
                &[separator, operand],
                arm,
            )
        }
        None => false,
    }
}

/// That of a chain.
fn has_side_arm(
    plan: &Plan,
    column: &[Verdict],
    next: Next,
    pc: usize,
    stretch: Stretch,
    side: Side,
    operand: NodeId,
    separator: NodeId,
) -> bool
    ensures { OnTrue result ((g : Grammar) → IsColumn g next column.now → (used : ChainBuilder) → Wherever next (λ text a. HasArm (program g plan.now text) a pc stretch (form.Chain side used operand separator))) }
{
    match side {
        Side::Left => has_chain_arm(plan, column, next, pc, stretch, operand, separator),
        Side::Right => has_link_arm(plan, column, next, pc, stretch, operand, separator),
    }
}

/// That of a chain that is folded from the right: rounds of a separator go to where its link is noted, after the table.
fn has_link_arm(
    plan: &Plan,
    column: &[Verdict],
    next: Next,
    pc: usize,
    stretch: Stretch,
    operand: NodeId,
    separator: NodeId,
) -> bool
    ensures { OnTrue result ((g : Grammar) → IsColumn g next column.now → Wherever next (λ text a. HasLinkArm (program g plan.now text) a pc stretch operand separator)) }
{
    let Some(head) = after(plan, stretch.keep, operand, pc) else {
        return false;
    };
    let Some(out) = stretch.end.checked_sub(2) else {
        return false;
    };
    let Some(link) = head.checked_add(1) else {
        return false;
    };
    match picked(plan, next, head) {
        Some(arm) => {
            let verdict = on(column, separator);
            goes_round(
                plan,
                verdict,
                stretch.keep,
                link,
                out,
                &Way::Jumps,
                &[separator],
                arm,
            )
        }
        None => false,
    }
}
