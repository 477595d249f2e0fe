//! Turns, by their instructions.

ghost use Rattle.std.specs.Prelude.{◌≡◌, Some, slice_get, IfOk, IfSome};
ghost use Rattle.pg_language.specs.Answers.{given};
ghost use Rattle.pg_machine_plan.specs.Plans.{chosen};
ghost use Rattle.pg_machine_plan.specs.declared.instruction.Instruction.TheVariants.{Pick, Fold};
ghost use Rattle.pg_machine_quick.specs.Looks.{Leads};
ghost use Rattle.pg_machine_quick.specs.Running.{shown, Does};
ghost use Rattle.pg_machine_quick.specs.Tape.{tape_closed, tape_folded, tape_picked, tape_reads, tape_spans};
ghost use Rattle.pg_machine_quick.specs.Tokens.{IsOfClass};
ghost use Rattle.pg_table.specs.Tables.{Table};

use crate::arms::arm_for;
use crate::context::Context;
use crate::reading::{after, counted, reading_at, satisfy};
use crate::running::Running;
use crate::step::Step;
use pg_grammar_classes::ClassSite;
use pg_grammar_form::{Form, Leaf, NodeId};
use pg_grammar_value::Grammar;
use pg_language::Reading as Manner;
use pg_machine_plan::{Instruction, Keep};
use pg_text::Text;
use std::alloc::AllocError;

impl<'a> Running<'a> {
    /// Makes a turn, or several where the code of rows is, or a token. This is the plan's code.
    pub(crate) fn turn(
        &mut self,
        context: Context<'_>,
        code: &[Instruction],
    ) -> Result<Step, AllocError>
        requires { code.now ≡ context.plan.now.code }
        ensures { IfOk result (λ step. Leads context.entry (shown self.old) step (shown self.new)) }
    {
        match instruction_in(code, self.pc) {
            Some(instruction) => self.act(context, code, instruction),
            None => Ok(Step::GivesUp),
        }
    }

    /// Makes a turn by the instruction that is there, or several. All instructions are told apart here, at once: this is what each turn does.
    fn act(
        &mut self,
        context: Context<'_>,
        code: &[Instruction],
        instruction: &Instruction,
    ) -> Result<Step, AllocError>
        requires code { code.now ≡ context.plan.now.code }
        requires here { slice_get context.plan.now.code self.old.pc ≡ Some instruction.now }
        ensures { IfOk result (λ step. Leads context.entry (shown self.old) step (shown self.new)) }
    {
        let grammar = context.grammar;
        let text = context.text;
        match instruction {
            Instruction::Enter => Ok(self.enter()),
            Instruction::Read(keep, node) => self.read(*keep, grammar, text, *node),
            Instruction::Span(keep, node) => self.span_node(*keep, grammar, text, *node),
            Instruction::Jump(target) => Ok(self.jump(*target)),
            Instruction::Pick(table) => self.pick_on(context, code, *table),
            Instruction::Call(target) => self.call(*target),
            Instruction::Return => Ok(self.come_back()),
            Instruction::Open(counts) => self.begin_form(context, *counts),
            Instruction::Close(keep, node) => self.close_node(*keep, grammar, text, *node),
            Instruction::Hold => self.hold(),
            Instruction::Fold(keep, node) => self.fold_on(context, code, *keep, *node),
            Instruction::Link => self.link(),
            Instruction::FoldLinks(keep, node) => self.fold_links(*keep, grammar, *node),
            Instruction::Release => Ok(self.release()),
            Instruction::Rows(rows) => self.begin_rows(grammar, context.operators, *rows),
            Instruction::ReadPrefix(_)
            | Instruction::ReadPostfix(_, _, _)
            | Instruction::ReadInfix(_, _, _)
            | Instruction::Settle(_, _, _) => self.take_rows(context),
            Instruction::Mark(target) => self.mark(*target),
            Instruction::Commit(target) => Ok(self.commit(*target)),
            Instruction::Again(target) => Ok(self.again(*target)),
            Instruction::Fail => Ok(self.back(self.taken, self.nodes)),
            Instruction::Stop => Ok(self.stop(self.place == text.len())),
        }
    }

    /// Goes on at the arm of a table for the next character, and makes the next turn as well where a leaf is read there.
    fn pick_on(
        &mut self,
        context: Context<'_>,
        code: &[Instruction],
        table: usize,
    ) -> Result<Step, AllocError>
        requires code { code.now ≡ context.plan.now.code }
        requires here { slice_get context.plan.now.code self.old.pc ≡ Some (Pick table) }
        ensures { IfOk result (λ step. Leads context.entry (shown self.old) step (shown self.new)) }
    {
        match self.pick_at(context, table) {
            Step::GoesOn => self.read_on(context, code),
            Step::GivesUp | Step::Stops => Ok(Step::GivesUp),
        }
    }

    /// Makes a turn, if a leaf is read there.
    fn read_on(&mut self, context: Context<'_>, code: &[Instruction]) -> Result<Step, AllocError>
        requires { code.now ≡ context.plan.now.code }
        ensures { IfOk result (λ step. Leads context.entry (shown self.old) step (shown self.new)) }
    {
        let Some(Instruction::Read(keep, node)) = instruction_in(code, self.pc) else {
            return Ok(Step::GoesOn);
        };
        self.read(*keep, context.grammar, context.text, *node)
    }

    /// Folds the trees of the chain at a node, and makes the next turn as well where it only goes on elsewhere, as it does behind each link.
    fn fold_on(
        &mut self,
        context: Context<'_>,
        code: &[Instruction],
        keep: Keep,
        node: NodeId,
    ) -> Result<Step, AllocError>
        requires code { code.now ≡ context.plan.now.code }
        requires here { slice_get context.plan.now.code self.old.pc ≡ Some (Fold keep node) }
        ensures { IfOk result (λ step. Leads context.entry (shown self.old) step (shown self.new)) }
    {
        match self.fold_node(keep, context.grammar, node)? {
            Step::GoesOn => Ok(self.jump_on(context, code)),
            Step::GivesUp | Step::Stops => Ok(Step::GivesUp),
        }
    }

    /// Makes a turn, if it only goes on elsewhere.
    fn jump_on(&mut self, context: Context<'_>, code: &[Instruction]) -> Step
        requires { code.now ≡ context.plan.now.code }
        ensures { Leads context.entry (shown self.old) result (shown self.new) }
    {
        let Some(Instruction::Jump(target)) = instruction_in(code, self.pc) else {
            return Step::GoesOn;
        };
        self.jump(*target)
    }

    /// Goes on at the arm of a table for the next character.
    fn pick_at(&mut self, context: Context<'_>, table: usize) -> Step
        ensures { Does (tape_picked (shown self.old) (chosen context.entry.plan.now table (slice_get context.entry.text.now self.old.place))) result (shown self.new) }
    {
        let next = context.text.char_at(self.place);
        match arm_for(context.plan.plan(), table, next) {
            Some(arm) => self.pick(arm),
            None => Step::GivesUp,
        }
    }

    /// Reads what the leaf at a node takes. Most are of a class, and these take a character or fail.
    #[inline(always)]
    fn read(
        &mut self,
        keep: Keep,
        grammar: &Grammar,
        text: &Text,
        node: NodeId,
    ) -> Result<Step, AllocError>
        ensures { IfOk result (λ step. (table : Table) → Does (tape_reads (given Manner.Library grammar.now text.now) table keep (shown self.old) (slice_get grammar.now.nodes node)) step (shown self.new)) }
    {
        match grammar.nodes().get(node.index()) {
            Some(Form::Leaf(Leaf::Satisfy(_))) => self.read_one(keep, grammar, text, node),
            Some(
                Form::Leaf(
                    Leaf::String(_)
                    | Leaf::Word(_)
                    | Leaf::NotFollowedBy(_)
                    | Leaf::EndOfText
                    | Leaf::Declare(_),
                )
                | Form::Seq(_)
                | Form::Choice(_)
                | Form::Many(_)
                | Form::Chain(_, _, _, _)
                | Form::Rule(_)
                | Form::Expression(_, _)
                | Form::Around(_, _),
            )
            | None => self.read_leaf(keep, grammar, text, node),
        }
    }

    /// Reads one character of the class of the leaf at a node.
    fn read_one(
        &mut self,
        keep: Keep,
        grammar: &Grammar,
        text: &Text,
        node: NodeId,
    ) -> Result<Step, AllocError>
        requires { IsOfClass grammar.now node }
        ensures { IfOk result (λ step. (table : Table) → Does (tape_reads (given Manner.Library grammar.now text.now) table keep (shown self.old) (slice_get grammar.now.nodes node)) step (shown self.new)) }
    {
        let reading = satisfy(grammar, text, node, self.place);
        self.react(keep, text, reading)
    }

    /// Reads what any leaf at a node takes.
    #[inline(never)]
    fn read_leaf(
        &mut self,
        keep: Keep,
        grammar: &Grammar,
        text: &Text,
        node: NodeId,
    ) -> Result<Step, AllocError>
        ensures { IfOk result (λ step. (table : Table) → Does (tape_reads (given Manner.Library grammar.now text.now) table keep (shown self.old) (slice_get grammar.now.nodes node)) step (shown self.new)) }
    {
        let Some(found) = grammar.nodes().get(node.index()) else {
            return Ok(Step::GivesUp);
        };
        let Some(reading) = reading_at(grammar, text, node, found, self.place) else {
            return Ok(Step::GivesUp);
        };
        self.react(keep, text, reading)
    }

    /// Takes all characters that come next of the class of the leaf at a node.
    fn span_node(
        &mut self,
        keep: Keep,
        grammar: &Grammar,
        text: &Text,
        node: NodeId,
    ) -> Result<Step, AllocError>
        ensures { IfOk result (λ step. Does (tape_spans (given Manner.Library grammar.now text.now) keep (shown self.old) (slice_get grammar.now.nodes node)) step (shown self.new)) }
    {
        match grammar.nodes().get(node.index()) {
            Some(Form::Leaf(Leaf::Satisfy(_))) => {
                let rest = after(text.characters(), self.place);
                let count = counted(grammar, ClassSite::Node(node), rest);
                self.span(keep, &rest[..count])
            }
            Some(
                Form::Leaf(
                    Leaf::String(_)
                    | Leaf::Word(_)
                    | Leaf::NotFollowedBy(_)
                    | Leaf::EndOfText
                    | Leaf::Declare(_),
                )
                | Form::Seq(_)
                | Form::Choice(_)
                | Form::Many(_)
                | Form::Chain(_, _, _, _)
                | Form::Rule(_)
                | Form::Expression(_, _)
                | Form::Around(_, _),
            )
            | None => Ok(Step::GivesUp),
        }
    }

    /// Ends the form around a part at a node.
    fn close_node(
        &mut self,
        keep: Keep,
        grammar: &Grammar,
        text: &Text,
        node: NodeId,
    ) -> Result<Step, AllocError>
        ensures { IfOk result (λ step. Does (tape_closed (given Manner.Library grammar.now text.now) keep (shown self.old) (slice_get grammar.now.nodes node)) step (shown self.new)) }
    {
        match grammar.nodes().get(node.index()) {
            Some(Form::Around(around, _)) => self.close(keep, around, text),
            Some(
                Form::Leaf(_)
                | Form::Seq(_)
                | Form::Choice(_)
                | Form::Many(_)
                | Form::Chain(_, _, _, _)
                | Form::Rule(_)
                | Form::Expression(_, _),
            )
            | None => Ok(Step::GivesUp),
        }
    }

    /// Folds the trees of the chain at a node.
    fn fold_node(&mut self, keep: Keep, grammar: &Grammar, node: NodeId) -> Result<Step, AllocError>
        ensures { IfOk result (λ step. Does (tape_folded keep (shown self.old) (slice_get grammar.now.nodes node)) step (shown self.new)) }
    {
        match grammar.nodes().get(node.index()) {
            Some(Form::Chain(_, used, _, _)) => self.fold(keep, used),
            Some(
                Form::Leaf(_)
                | Form::Seq(_)
                | Form::Choice(_)
                | Form::Many(_)
                | Form::Rule(_)
                | Form::Expression(_, _)
                | Form::Around(_, _),
            )
            | None => Ok(Step::GivesUp),
        }
    }
}

/// The instruction at a place in the code.
fn instruction_in(code: &[Instruction], pc: usize) -> Option<&Instruction>
    ensures { IfSome result (λ instruction. slice_get code.now pc ≡ Some instruction.now) }
{
    code.get(pc)
}
