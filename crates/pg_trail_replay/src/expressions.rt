//! Expressions: the steps of the tree that fits the table and has the item's operators.

ghost use Rattle.std.specs.Prelude.{◌≡◌, ◌∷◌, [], IfOk, OnOk, length, map, reverse};
ghost use Rattle.pg_expand_fitting.specs.Judge.{step_of};
ghost use Rattle.pg_trail_replay.specs.Tasks.{on, told, node, newest_waiting, waiting_before, step_task, with_task, with_steps, operators_turn, expression_turn, symbol_turn, ended_turn, operator_end, builder_on, marks_after, built_after, applied_under, application_turn, with_forest, with_loose, with_marks, without_newest, first_mark};
ghost use Rattle.pg_trail_replay.specs.View.{state_of, loose_of, waiting_of, task_of};

use crate::looseness::{newest_waiting, wait_before};
use crate::operators::operator_end;
use crate::replay_fault::Mismatch;
use crate::replayer::Replayer;
use crate::step::build;
use crate::task::{Expression, Halt, Looseness, ShortTask, Task};
use pg_expand_fitting::{Step, fitting_steps};
use pg_grammar_form::{BuilderUse, NodeId, OperatorBuilders};
use pg_grammar_value::{AppliedOperator, Fixity, Grammar, TrailItem};
use pg_text::{Text, utf8};
use std::alloc::{AllocError, Global};

impl<'a> Replayer<'a> {
    /// Takes the item with the operators.
    pub(crate) fn begin_expression(
        &mut self,
        alloc: Global,
        grammar: &Grammar,
        builders: &'a OperatorBuilders,
        part: NodeId,
    ) -> Result<Option<Halt>, AllocError>
        ensures { IfOk result (λ halt. told halt (state_of self.new) ≡ expression_turn grammar.now builders.now part self.old.rest.now (state_of self.old)) }
    {
        match self.rest.split_first() {
            Some((TrailItem::Ops(read), rest)) => {
                let expression = Expression { builders, part };
                self.begin_operators(alloc, grammar, &expression, read.as_slice(), rest)
            }
            Some((TrailItem::Alt(_) | TrailItem::Rounds(_), _)) | None => Ok(Some(Halt::Stopped(
                Mismatch::ItemDiffers,
            ))),
        }
    }

    /// Fits the operators to a tree, before the first operand.
    fn begin_operators(
        &mut self,
        alloc: Global,
        grammar: &Grammar,
        expression: &Expression<'a>,
        read: &'a [AppliedOperator],
        rest: &'a [TrailItem],
    ) -> Result<Option<Halt>, AllocError>
        ensures { IfOk result (λ halt. told halt (state_of self.new) ≡ operators_turn grammar.now.operators expression.now.builders.now expression.now.part read.now rest.now (state_of self.old)) }
    {
        if grammar.operators_item().is_none() {
            return Ok(Some(Halt::Stopped(Mismatch::ItemDiffers)));
        }
        match fitting_steps(alloc, &self.table, read)? {
            Some(steps) => {
                self.take_item(rest);
                self.push_tasks(&[
                    Task::Short(ShortTask::Settle(self.loose)),
                    Task::Short(ShortTask::Unmark),
                ])?;
                self.push_steps(alloc, expression, steps)?;
                Ok(None)
            }
            None => Ok(Some(Halt::Stopped(Mismatch::ItemDiffers))),
        }
    }

    /// Pushes the steps as tasks, so that the first step is the next task.
    #[tactic(auto, using(crate::proofs::Steps::no_steps))]
    fn push_steps(
        &mut self,
        alloc: Global,
        expression: &Expression<'a>,
        steps: Vec<Step<'a>>,
    ) -> Result<(), AllocError>
        ensures { OnOk result (state_of self.new ≡ with_steps expression.now.builders.now expression.now.part (map step_of steps.entry.items) (loose_of self.old.loose ∷ []) (state_of self.old)) }
    {
        let mut steps = steps;
        let mut waiting = Vec::new(alloc);
        waiting.push(self.loose)?;
        while let Some(step) = steps.pop() {
            self.push_step(expression.builders, expression.part, step, &mut waiting)?;
        }
        Ok(())
    }

    /// Pushes the step as the next task; `waiting` becomes that of the operands before it.
    fn push_step(
        &mut self,
        builders: &'a OperatorBuilders,
        part: NodeId,
        step: Step<'a>,
        waiting: &mut Vec<Looseness<'a>>,
    ) -> Result<(), AllocError>
        ensures tasks { OnOk result (state_of self.new ≡
            with_task (step_task builders.now part (newest_waiting (waiting_of waiting.old.items)) (step_of step.entry)) (state_of self.old)) }
        ensures waiting { OnOk result (waiting_of waiting.new.items ≡ waiting_before builders.now (step_of step.entry) (waiting_of waiting.old.items)) }
    {
        let loose = newest_waiting(waiting.as_slice());
        wait_before(builders, &step, waiting)?;
        self.push_tasks(&[step_task(builders, part, loose, step)])
    }

    /// Runs a term with this looseness, whose trees begin the next operand.
    pub(crate) fn term(
        &mut self,
        part: NodeId,
        loose: Looseness<'a>,
    ) -> Result<Option<Halt>, AllocError>
        ensures { IfOk result (λ halt. told halt (state_of self.new) ≡
            on (with_task (node part) (with_loose (loose_of loose.entry) (with_marks (length self.old.forest ∷ reverse self.old.marks.items) (state_of self.old))))) }
    {
        self.mark()?;
        self.set_loose(loose);
        self.go_on(&[Task::Short(ShortTask::Node(part))])
    }

    /// Ends the expression, of which only the last operand is left.
    pub(crate) fn end_expression(&mut self) -> Result<Option<Halt>, AllocError>
        ensures { IfOk result (λ halt. told halt (state_of self.new) ≡
            on (with_marks (without_newest (reverse self.old.marks.items)) (state_of self.old))) }
    {
        self.unmark();
        Ok(None)
    }

    /// Reads the symbol of an operator, and the gap after it.
    pub(crate) fn symbol(
        &mut self,
        grammar: &Grammar,
        text: &Text,
        operator: &AppliedOperator,
    ) -> Option<Halt>
        ensures { told result (state_of self.new) ≡ symbol_turn grammar.now text.now grammar.now.operators operator.now (state_of self.old) }
    {
        match grammar.operators_item() {
            Some(item) => {
                self.end_at(operator_end(
                    grammar,
                    text,
                    item,
                    operator.symbol.as_slice(),
                    self.place,
                ))
            }
            None => Some(Halt::Stopped(Mismatch::TextDiffers)),
        }
    }

    /// Moves to the end of what was read, if it stands in the text.
    fn end_at(&mut self, end: Option<usize>) -> Option<Halt>
        ensures { told result (state_of self.new) ≡ ended_turn end (state_of self.old) }
    {
        match end {
            Some(end) => {
                self.move_to(end);
                None
            }
            None => Some(Halt::Stopped(Mismatch::TextDiffers)),
        }
    }

    /// Applies the operator to its operands, which become one.
    pub(crate) fn apply(
        &mut self,
        alloc: Global,
        builders: &OperatorBuilders,
        operator: &AppliedOperator,
    ) -> Result<Option<Halt>, AllocError>
        ensures { IfOk result (λ halt. told halt (state_of self.new) ≡ application_turn builders.now operator.now (state_of self.old)) }
    {
        self.join_operands(operator.fixity);
        self.apply_newest(
            alloc,
            builder_on(operator.fixity, builders),
            operator.symbol.as_slice(),
        )?;
        Ok(None)
    }

    /// Joins the last two operands into one after an infix operator.
    fn join_operands(&mut self, fixity: Fixity)
        ensures { state_of self.new ≡ with_marks (marks_after fixity (reverse self.old.marks.items)) (state_of self.old) }
    {
        match fixity {
            Fixity::Infix => self.unmark(),
            Fixity::Prefix | Fixity::Postfix => {}
        }
    }

    /// Builds the trees of the newest operand into one.
    fn apply_newest(
        &mut self,
        alloc: Global,
        used: &BuilderUse,
        symbol: &[char],
    ) -> Result<(), AllocError>
        ensures { OnOk result (state_of self.new ≡ with_forest (built_after used.now.shape symbol.now (first_mark (reverse self.old.marks.items)) self.old.forest) self.old.table (state_of self.old)) }
    {
        let trees = self.newest_mark();
        let symbol = utf8(alloc, symbol)?;
        build(&used.shape, symbol.as_str(), trees, &mut self.forest)
    }
}

/// The task of a step; a term gets this looseness.
fn step_task<'a>(
    builders: &'a OperatorBuilders,
    part: NodeId,
    loose: Looseness<'a>,
    step: Step<'a>,
) -> Task<'a>
    ensures { task_of result ≡ step_task builders.now part (loose_of loose.entry) (step_of step.entry) }
{
    match step {
        Step::Term => Task::Short(ShortTask::Term(part, loose)),
        Step::Symbol(operator) => Task::Short(ShortTask::Symbol(operator)),
        Step::Application(operator) => Task::Short(ShortTask::Application { builders, operator }),
    }
}

/// The builder of operators on this side of their operands.
pub(crate) fn builder_on(fixity: Fixity, builders: &OperatorBuilders) -> &BuilderUse
    ensures { result.now ≡ builder_on fixity builders.now }
{
    match fixity {
        Fixity::Prefix => &builders.prefix,
        Fixity::Infix => &builders.infix,
        Fixity::Postfix => &builders.postfix,
    }
}
