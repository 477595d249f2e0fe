//! Whether the stretches that a plan notes are those of their nodes, if the arms of their tables are right.

ghost use Rattle.std.specs.Prelude.{◌≡◌, ◌+◌, ℕ, List, Some, slice_get};
ghost use Rattle.std.specs.Bool.{OnTrue};
ghost use Rattle.pg_grammar_form.specs.declared.class.ClassPart.{ClassPart};
ghost use Rattle.pg_grammar_form.specs.declared.form.Around.{Around};
ghost use Rattle.pg_grammar_form.specs.declared.form.Form.TheVariants as form;
ghost use Rattle.pg_grammar_form.specs.declared.form.Leaf.{Leaf};
ghost use Rattle.pg_grammar_form.specs.declared.form.Leaf.TheVariants as leaf;
ghost use Rattle.pg_grammar_form.specs.declared.side.Side.TheVariants.{Left, Right};
ghost use Rattle.pg_grammar_form.specs.declared.used.ChainBuilder.{ChainBuilder};
ghost use Rattle.pg_grammar_value.specs.Grammar.{Grammar};
ghost use Rattle.pg_machine_plan.specs.Judged.{HasShape, IsBody, IsLink, IsShaped};
ghost use Rattle.pg_machine_plan.specs.Layout.{IsTransparent, keep_below};
ghost use Rattle.pg_machine_plan.specs.declared.instruction.Instruction.TheVariants.{Call};
ghost use Rattle.pg_machine_plan.specs.declared.instruction.Stretch.{Stretch};

use crate::instruction::{Instruction, Keep, Stretch};
use crate::judge_code::{after, all_after, call, comes_to, node_at, noted, rule_at, stands, table};
use crate::judge_expressions::is_expression;
use crate::plan::Plan;
use crate::verdict_node::counts;
use pg_grammar_form::{Around, Form, Leaf, Node, NodeId, RuleId, Side};
use pg_grammar_value::Grammar;

/// Whether all stretches are of their nodes, if the arms of their tables are right.
pub(crate) fn has_shapes(grammar: &Grammar, plan: &Plan) -> bool
    ensures { OnTrue result ((pc : ℕ) → HasShape grammar.now plan.now pc) }
{
    for (pc, stretch) in plan.stretches().iter().enumerate() {
        if !has_shape(grammar, plan, pc, stretch) {
            return false;
        }
    }
    true
}

/// Whether the stretch that begins there is, if one is noted.
fn has_shape(grammar: &Grammar, plan: &Plan, pc: usize, noted: &Option<Stretch>) -> bool
    requires { slice_get plan.now.stretches pc ≡ Some noted.now }
    ensures { OnTrue result (HasShape grammar.now plan.now pc) }
{
    let Some(stretch) = noted else {
        return true;
    };
    match node_at(grammar, stretch.node) {
        Some(node) => is_shaped(grammar, plan, pc, *stretch, node),
        None => false,
    }
}

/// Whether a stretch is of this node.
fn is_shaped(grammar: &Grammar, plan: &Plan, pc: usize, stretch: Stretch, node: &Node) -> bool
    ensures { OnTrue result (IsShaped grammar.now plan.now pc stretch node.now) }
{
    match node {
        Form::Leaf(_) => is_leaf(plan, pc, stretch),
        Form::Seq(parts) => is_seq(plan, pc, stretch, parts.as_slice()),
        Form::Choice(_) => is_choice(plan, pc),
        Form::Many(part) => is_span_of(grammar, plan, pc, stretch, *part) || is_many(plan, pc),
        Form::Chain(side, _, operand, _) => is_chain(plan, pc, stretch, *side, *operand),
        Form::Rule(rule) => is_rule(grammar, plan, pc, stretch, *rule),
        Form::Expression(_, term) => is_expression(plan, pc, stretch, *term),
        Form::Around(around, part) => is_around(plan, pc, stretch, around, *part),
    }
}

/// Whether it is one instruction.
pub(crate) fn is_one(pc: usize, end: usize) -> bool
    ensures { OnTrue result (end ≡ pc + 1) }
{
    match pc.checked_add(1) {
        Some(next) => end == next,
        None => false,
    }
}

/// A leaf is read.
fn is_leaf(plan: &Plan, pc: usize, stretch: Stretch) -> bool
    ensures { OnTrue result ((g : Grammar) (l : Leaf ℕ) → IsShaped g plan.now pc stretch (form.Leaf l)) }
{
    is_one(pc, stretch.end) && stands(plan, pc, Instruction::Read(stretch.keep, stretch.node))
}

/// The parts of a sequence are noted one after another.
fn is_seq(plan: &Plan, pc: usize, stretch: Stretch, parts: &[NodeId]) -> bool
    ensures { OnTrue result ((g : Grammar) → IsShaped g plan.now pc stretch (form.Seq parts.now)) }
{
    match all_after(plan, stretch.keep, parts, pc) {
        Some(end) => end == stretch.end && stands(plan, pc, Instruction::Enter),
        None => false,
    }
}

/// A choice begins with a table.
fn is_choice(plan: &Plan, pc: usize) -> bool
    ensures { OnTrue result ((g : Grammar) (stretch : Stretch) (ps : List ℕ) → IsShaped g plan.now pc stretch (form.Choice ps)) }
{
    let Some(_) = table(plan, pc) else {
        return false;
    };
    true
}

/// A repetition of one class is a span.
fn is_span_of(grammar: &Grammar, plan: &Plan, pc: usize, stretch: Stretch, part: NodeId) -> bool
    ensures { OnTrue result (IsShaped grammar.now plan.now pc stretch (form.Many part)) }
{
    if is_one(pc, stretch.end) {
        is_class(grammar, part) && stands(plan, pc, Instruction::Span(stretch.keep, part))
    } else {
        false
    }
}

/// Whether a node is one character of a class.
fn is_class(grammar: &Grammar, node: NodeId) -> bool
    ensures { OnTrue result ((class : List ClassPart) × (slice_get grammar.now.nodes node ≡ Some (form.Leaf (leaf.Satisfy class)))) }
{
    match node_at(grammar, node) {
        Some(Form::Leaf(Leaf::Satisfy(_))) => true,
        Some(
            Form::Leaf(
                Leaf::String(_)
                | Leaf::Word(_)
                | Leaf::NotFollowedBy(_)
                | Leaf::EndOfText
                | Leaf::Declare(_),
            )
            | Form::Seq(_)
            | Form::Choice(_)
            | Form::Many(_)
            | Form::Chain(_, _, _, _)
            | Form::Rule(_)
            | Form::Expression(_, _)
            | Form::Around(_, _),
        )
        | None => false,
    }
}

/// Any other has a table after its first instruction.
fn is_many(plan: &Plan, pc: usize) -> bool
    ensures { OnTrue result ((g : Grammar) (stretch : Stretch) (p : ℕ) → IsShaped g plan.now pc stretch (form.Many p)) }
{
    let Some(head) = pc.checked_add(1) else {
        return false;
    };
    let Some(_) = table(plan, head) else {
        return false;
    };
    stands(plan, pc, Instruction::Enter)
}

/// A chain has its first operand, and then a table.
fn is_chain(plan: &Plan, pc: usize, stretch: Stretch, side: Side, operand: NodeId) -> bool
    ensures { OnTrue result ((g : Grammar) (used : ChainBuilder) (separator : ℕ) → IsShaped g plan.now pc stretch (form.Chain side used operand separator)) }
{
    match side {
        Side::Left => is_left_chain(plan, pc, stretch, operand),
        Side::Right => is_right_chain(plan, pc, stretch, operand),
    }
}

/// One that is folded from the left ends where it is released.
fn is_left_chain(plan: &Plan, pc: usize, stretch: Stretch, operand: NodeId) -> bool
    ensures { OnTrue result ((g : Grammar) (used : ChainBuilder) (separator : ℕ) → IsShaped g plan.now pc stretch (form.Chain Left used operand separator)) }
{
    let Some(head) = after(plan, stretch.keep, operand, pc) else {
        return false;
    };
    let Some(out) = stretch.end.checked_sub(1) else {
        return false;
    };
    let Some(_) = table(plan, head) else {
        return false;
    };
    stands(plan, pc, Instruction::Hold) && stands(plan, out, Instruction::Release)
}

/// In one that is folded from the right, each link is noted after the table, and what waits is folded before it is released.
fn is_right_chain(plan: &Plan, pc: usize, stretch: Stretch, operand: NodeId) -> bool
    ensures { OnTrue result ((g : Grammar) (used : ChainBuilder) (separator : ℕ) → IsShaped g plan.now pc stretch (form.Chain Right used operand separator)) }
{
    let Some(head) = after(plan, stretch.keep, operand, pc) else {
        return false;
    };
    let Some(out) = stretch.end.checked_sub(2) else {
        return false;
    };
    let Some(_) = table(plan, head) else {
        return false;
    };
    if is_link(plan, stretch.keep, operand, head)
        && stands(plan, pc, Instruction::Hold)
        && stands(
            plan,
            out,
            Instruction::FoldLinks(stretch.keep, stretch.node),
        )
    {
        stands(plan, out + 1, Instruction::Release)
    } else {
        false
    }
}

/// Whether a link is noted after the table of a chain, an operand comes after it, and then the table again.
fn is_link(plan: &Plan, keep: Keep, operand: NodeId, head: usize) -> bool
    ensures { OnTrue result (IsLink plan.now keep operand head) }
{
    let Some(link) = head.checked_add(1) else {
        return false;
    };
    match after(plan, keep, operand, link) {
        Some(end) => {
            if comes_to(plan, head, end) {
                stands(plan, link, Instruction::Link)
            } else {
                false
            }
        }
        None => false,
    }
}

/// A rule is called, or its body stands at its use.
fn is_rule(grammar: &Grammar, plan: &Plan, pc: usize, stretch: Stretch, rule: RuleId) -> bool
    ensures { OnTrue result (IsShaped grammar.now plan.now pc stretch (form.Rule rule)) }
{
    match call(plan, pc) {
        Some(target) => is_called(grammar, plan, pc, stretch, rule, target),
        None => is_inside(grammar, plan, pc, stretch, rule),
    }
}

/// The body comes after the use's own instruction, and nothing after it.
fn is_inside(grammar: &Grammar, plan: &Plan, pc: usize, stretch: Stretch, rule: RuleId) -> bool
    ensures { OnTrue result (IsShaped grammar.now plan.now pc stretch (form.Rule rule)) }
{
    let Some(named) = rule_at(grammar, rule) else {
        return false;
    };
    match after(plan, stretch.keep, named.body, pc) {
        Some(end) => end == stretch.end && stands(plan, pc, Instruction::Enter),
        None => false,
    }
}

/// A rule is called there, and its body returns.
fn is_called(
    grammar: &Grammar,
    plan: &Plan,
    pc: usize,
    stretch: Stretch,
    rule: RuleId,
    target: usize,
) -> bool
    requires { slice_get plan.now.code pc ≡ Some (Call target) }
    ensures { OnTrue result (IsShaped grammar.now plan.now pc stretch (form.Rule rule)) }
{
    match rule_at(grammar, rule) {
        Some(named) => is_one(pc, stretch.end) && is_body(plan, stretch.keep, named.body, target),
        None => false,
    }
}

/// Whether a stretch for the node is noted there that returns.
pub(crate) fn is_body(plan: &Plan, keep: Keep, node: NodeId, pc: usize) -> bool
    ensures { OnTrue result (IsBody plan.now keep node pc) }
{
    match noted(plan, keep, node, pc) {
        Some(exit) => stands(plan, exit, Instruction::Return),
        None => false,
    }
}

/// A form around a part has the part's stretch alone, if it leaves all else as it is.
fn is_around(plan: &Plan, pc: usize, stretch: Stretch, around: &Around, part: NodeId) -> bool
    ensures { OnTrue result ((g : Grammar) → IsShaped g plan.now pc stretch (form.Around around.now part)) }
{
    if is_transparent(stretch.keep, around) {
        is_entered(plan, pc, stretch, around, part)
    } else {
        is_enclosed(plan, pc, stretch, around, part)
    }
}

/// Whether the form leaves all as it is, but for what is hidden below it.
fn is_transparent(keep: Keep, around: &Around) -> bool
    ensures { OnTrue result (IsTransparent keep around.now) }
{
    match around {
        Around::Label(_) | Around::Skip => true,
        Around::Text | Around::Build(_, _) => keep == Keep::Hidden,
        Around::Try | Around::Local => false,
    }
}

/// The part comes after the form's own instruction, and nothing after it.
fn is_entered(plan: &Plan, pc: usize, stretch: Stretch, around: &Around, part: NodeId) -> bool
    ensures { OnTrue result ((g : Grammar) → IsTransparent stretch.keep around.now → IsShaped g plan.now pc stretch (form.Around around.now part)) }
{
    match after(plan, keep_below(stretch.keep, around), part, pc) {
        Some(end) => end == stretch.end && stands(plan, pc, Instruction::Enter),
        None => false,
    }
}

/// The part stands between an instruction that opens the form and one that closes it.
fn is_enclosed(plan: &Plan, pc: usize, stretch: Stretch, around: &Around, part: NodeId) -> bool
    ensures { OnTrue result ((g : Grammar) → IsShaped g plan.now pc stretch (form.Around around.now part)) }
{
    match after(plan, keep_below(stretch.keep, around), part, pc) {
        Some(exit) => {
            if is_one(exit, stretch.end) {
                stands(plan, pc, Instruction::Open(counts(around)))
                    && stands(plan, exit, Instruction::Close(stretch.keep, stretch.node))
            } else {
                false
            }
        }
        None => false,
    }
}

/// Whether trees are kept below a form around a part.
pub(crate) fn keep_below(keep: Keep, around: &Around) -> Keep
    ensures { result ≡ keep_below keep around.now }
{
    match around {
        Around::Text | Around::Skip => Keep::Hidden,
        Around::Try | Around::Build(_, _) | Around::Label(_) | Around::Local => keep,
    }
}
