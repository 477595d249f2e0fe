//! Turns of the code of rows, several at a place of the text.

ghost use Rattle.std.specs.Prelude.{◌≡◌, ◌+◌, slice_get, Some, IfOk, IfSome};
ghost use Rattle.pg_grammar_form.specs.declared.decl.Role.TheVariants.{Prefix, Postfix};
ghost use Rattle.pg_machine_quick.specs.Looks.{given_of, IsLook, Leads, program_of};
ghost use Rattle.pg_machine_quick.specs.Running.{shown, Does, IsOfExpression};
ghost use Rattle.pg_machine_quick.specs.Tape.{found_at, tape_act, tape_by_builders, tape_prefixed, tape_postfixed, tape_infixed, tape_awaited, tape_settled};
ghost use Rattle.pg_table.specs.Tables.{Table};

use crate::context::{Context, Look, look_at};
use crate::landmarks::MarkedPlan;
use crate::running::Running;
use crate::step::Step;
use pg_grammar_form::{Form, NodeId, OperatorBuilders, Role};
use pg_grammar_value::Grammar;
use pg_machine_plan::{Instruction, Keep};
use pg_text::Text;
use std::alloc::{AllocError, Global};

/// How many instructions of rows are done at a place before the run goes on to its next turn.
const AT_A_PLACE: usize = 1_000;

impl<'a> Running<'a> {
    /// Makes turns of the code of rows for as long as the place in the text stays.
    pub(crate) fn take_rows(&mut self, context: Context<'_>) -> Result<Step, AllocError>
        ensures { IfOk result (λ step. Leads context.entry (shown self.old) step (shown self.new)) }
    {
        match self.past_prefixes(context) {
            Some(pc) => {
                self.pc = pc;
                Ok(Step::GoesOn)
            }
            None => self.look_for_rows(context),
        }
    }

    /// The same by what stands at the place, which is looked up once for all of them.
    fn look_for_rows(&mut self, context: Context<'_>) -> Result<Step, AllocError>
        ensures { IfOk result (λ step. Leads context.entry (shown self.old) step (shown self.new)) }
    {
        match look_at(context, self.place) {
            Some(look) => self.rows_at(look),
            None => Ok(Step::GivesUp),
        }
    }

    /// The same, where this stands at the place.
    fn rows_at(&mut self, look: Look<'_>) -> Result<Step, AllocError>
        requires look { IsLook look }
        ensures { IfOk result (λ step. Leads look.entry.context (shown self.old) step (shown self.new)) }
    {
        for _ in 0..AT_A_PLACE {
            if self.place != look.place {
                return Ok(Step::GoesOn);
            }
            self.pc = self.passed(look);
            let Some(instruction) = row_instruction(look.context.plan, self.pc) else {
                return Ok(Step::GoesOn);
            };
            match self.act_at(look, instruction)? {
                Step::GoesOn => {}
                Step::GivesUp | Step::Stops => return Ok(Step::GivesUp),
            }
        }
        Ok(Step::GoesOn)
    }

    /// Does what an instruction of a row says.
    fn act_at(&mut self, look: Look<'_>, instruction: Instruction) -> Result<Step, AllocError>
        requires look { IsLook look }
        requires place { look.place ≡ self.old.place }
        ensures { IfOk result (λ step. (table : Table) → table.operators ≡ look.entry.context.operators.now → Does (tape_act (program_of look.entry.context) table (shown self.old) (Some instruction)) step (shown self.new)) }
    {
        match instruction {
            Instruction::ReadPrefix(row) => self.read_prefix(look, row),
            Instruction::ReadPostfix(keep, node, row) => self.read_postfix(look, keep, node, row),
            Instruction::ReadInfix(keep, node, row) => self.read_infix(look, keep, node, row),
            Instruction::Settle(keep, node, rank) => {
                let context = look.context;
                self.settle_node(
                    context.alloc,
                    keep,
                    context.grammar,
                    context.text,
                    node,
                    rank,
                )
            }
            Instruction::Enter
            | Instruction::Read(_, _)
            | Instruction::Span(_, _)
            | Instruction::Jump(_)
            | Instruction::Pick(_)
            | Instruction::Call(_)
            | Instruction::Return
            | Instruction::Open(_)
            | Instruction::Close(_, _)
            | Instruction::Hold
            | Instruction::Fold(_, _)
            | Instruction::Link
            | Instruction::FoldLinks(_, _)
            | Instruction::Release
            | Instruction::Rows(_)
            | Instruction::Mark(_)
            | Instruction::Commit(_)
            | Instruction::Again(_)
            | Instruction::Fail
            | Instruction::Stop => Ok(Step::GivesUp),
        }
    }

    /// Reads a prefix operator of a row.
    fn read_prefix(&mut self, look: Look<'_>, row: usize) -> Result<Step, AllocError>
        requires look { IsLook look }
        requires place { look.place ≡ self.old.place }
        ensures { IfOk result (λ step. (table : Table) → table.operators ≡ look.entry.context.operators.now → Does (tape_prefixed row (shown self.old) (found_at (given_of look.entry.context) table self.old.place row Prefix)) step (shown self.new)) }
    {
        let Some(number) = row.checked_add(1) else {
            return Ok(Step::GivesUp);
        };
        self.prefix(row, look.read(number, Role::Prefix))
    }

    /// Reads a postfix operator of a row of the expression at a node.
    fn read_postfix(
        &mut self,
        look: Look<'_>,
        keep: Keep,
        node: NodeId,
        row: usize,
    ) -> Result<Step, AllocError>
        requires look { IsLook look }
        requires place { look.place ≡ self.old.place }
        ensures { IfOk result (λ step. (table : Table) → table.operators ≡ look.entry.context.operators.now → Does (tape_by_builders (slice_get look.entry.context.grammar.now.nodes node) (λ builders. tape_postfixed look.entry.context.text.now keep builders (shown self.old) (found_at (given_of look.entry.context) table self.old.place row Postfix))) step (shown self.new)) }
    {
        let context = look.context;
        let Some(builders) = builders_at(context.grammar, node) else {
            return Ok(Step::GivesUp);
        };
        let Some(number) = row.checked_add(1) else {
            return Ok(Step::GivesUp);
        };
        let found = look.read(number, Role::Postfix);
        self.postfix(context.alloc, keep, builders, context.text, found)
    }

    /// Reads an infix operator of a row of the expression at a node.
    fn read_infix(
        &mut self,
        look: Look<'_>,
        keep: Keep,
        node: NodeId,
        row: usize,
    ) -> Result<Step, AllocError>
        requires look { IsLook look }
        requires place { look.place ≡ self.old.place }
        ensures { IfOk result (λ step. (table : Table) → table.operators ≡ look.entry.context.operators.now → Does (tape_by_builders (slice_get look.entry.context.grammar.now.nodes node) (λ builders. tape_infixed (given_of look.entry.context) table keep builders row (shown self.old) (tape_awaited (row + row + 1) (shown self.old).stack))) step (shown self.new)) }
    {
        let Some(builders) = builders_at(look.context.grammar, node) else {
            return Ok(Step::GivesUp);
        };
        self.infix(look, keep, builders, row)
    }

    /// Applies what waits last in the expression at a node, if its rank is this.
    fn settle_node(
        &mut self,
        alloc: Global,
        keep: Keep,
        grammar: &Grammar,
        text: &Text,
        node: NodeId,
        rank: usize,
    ) -> Result<Step, AllocError>
        ensures { IfOk result (λ step. Does (tape_by_builders (slice_get grammar.now.nodes node) (λ builders. tape_settled text.now keep builders rank (shown self.old) (shown self.old).stack)) step (shown self.new)) }
    {
        let Some(builders) = builders_at(grammar, node) else {
            return Ok(Step::GivesUp);
        };
        self.settle(alloc, keep, builders, text, rank)
    }
}

/// The instruction there, if it is one of rows.
fn row_instruction(plan: &MarkedPlan<'_>, pc: usize) -> Option<Instruction>
    ensures { IfSome result (λ instruction. slice_get plan.now.code pc ≡ Some instruction) }
{
    let instruction = plan.code().get(pc)?;
    if is_of_rows(*instruction) {
        Some(*instruction)
    } else {
        None
    }
}

/// Whether an instruction is one of rows.
pub(crate) fn is_of_rows(instruction: Instruction) -> bool {
    match instruction {
        Instruction::ReadPrefix(_)
        | Instruction::ReadPostfix(_, _, _)
        | Instruction::ReadInfix(_, _, _)
        | Instruction::Settle(_, _, _) => true,
        Instruction::Enter
        | Instruction::Read(_, _)
        | Instruction::Span(_, _)
        | Instruction::Jump(_)
        | Instruction::Pick(_)
        | Instruction::Call(_)
        | Instruction::Return
        | Instruction::Open(_)
        | Instruction::Close(_, _)
        | Instruction::Hold
        | Instruction::Fold(_, _)
        | Instruction::Link
        | Instruction::FoldLinks(_, _)
        | Instruction::Release
        | Instruction::Rows(_)
        | Instruction::Mark(_)
        | Instruction::Commit(_)
        | Instruction::Again(_)
        | Instruction::Fail
        | Instruction::Stop => false,
    }
}

/// The builders of the expression at a node, if one is there.
pub(crate) fn builders_at(grammar: &Grammar, node: NodeId) -> Option<&OperatorBuilders>
    ensures { IfSome result (λ builders. IsOfExpression (slice_get grammar.now.nodes node) builders.now) }
{
    match grammar.nodes().get(node.index()) {
        Some(Form::Expression(builders, _)) => Some(builders),
        Some(
            Form::Leaf(_)
            | Form::Seq(_)
            | Form::Choice(_)
            | Form::Many(_)
            | Form::Chain(_, _, _, _)
            | Form::Rule(_)
            | Form::Around(_, _),
        )
        | None => None,
    }
}
