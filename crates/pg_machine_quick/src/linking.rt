//! Turns of chains that are folded from the right.

ghost use Rattle.std.specs.Prelude.{◌≡◌, slice_get, IfOk};
ghost use Rattle.pg_machine_quick.specs.Running.{shown, Does};
ghost use Rattle.pg_machine_quick.specs.Tape.{begin_of, tape_linked, tape_unlinked_from, tape_last_unlinked, tape_links_folded};

use crate::frame::Frame;
use crate::running::Running;
use crate::step::Step;
use crate::trees::fold;
use pg_grammar_form::{ChainBuilder, Form, NodeId, Role};
use pg_grammar_value::Grammar;
use pg_machine_plan::Keep;
use std::alloc::AllocError;

impl<'a> Running<'a> {
    /// What is before an operand waits, after a separator.
    pub(crate) fn link(&mut self) -> Result<Step, AllocError>
        ensures { IfOk result (λ step. Does (tape_linked (shown self.old)) step (shown self.new)) }
    {
        let Some(pc) = self.pc.checked_add(1) else {
            return Ok(Step::GivesUp);
        };
        let Some(operation) = self.operation(0, Role::InfixRight, 0) else {
            return Ok(Step::GivesUp);
        };
        self.frames.push(Frame::Operates(operation))?;
        self.pc = pc;
        Ok(Step::GoesOn)
    }

    /// Folds what waits in the chain at a node.
    pub(crate) fn fold_links(
        &mut self,
        keep: Keep,
        grammar: &Grammar,
        node: NodeId,
    ) -> Result<Step, AllocError>
        ensures { IfOk result (λ step. Does (tape_links_folded keep (shown self.old) (slice_get grammar.now.nodes node)) step (shown self.new)) }
    {
        match grammar.nodes().get(node.index()) {
            Some(Form::Chain(_, used, _, _)) => self.fold_last(keep, used),
            Some(
                Form::Leaf(_)
                | Form::Seq(_)
                | Form::Choice(_)
                | Form::Many(_)
                | Form::Rule(_)
                | Form::Expression(_, _)
                | Form::Around(_, _),
            )
            | None => Ok(Step::GivesUp),
        }
    }

    /// Folds what waits last with what is after it, or goes on where nothing waits.
    fn fold_last(&mut self, keep: Keep, used: &ChainBuilder) -> Result<Step, AllocError>
        ensures { IfOk result (λ step. Does (tape_last_unlinked keep used.now (shown self.old) (shown self.old).stack) step (shown self.new)) }
    {
        match self.last() {
            Some(Frame::Operates(_)) => self.fold_link(keep, used),
            Some(Frame::Holds(_) | Frame::Returns(_) | Frame::Encloses(_, _) | Frame::Marks(_, _))
            | None => Ok(self.pass(1)),
        }
    }

    /// Folds what waits last with what is after it.
    fn fold_link(&mut self, keep: Keep, used: &ChainBuilder) -> Result<Step, AllocError>
        ensures { IfOk result (λ step. Does (tape_last_unlinked keep used.now (shown self.old) (shown self.old).stack) step (shown self.new)) }
    {
        match self.frames.pop() {
            Some(Frame::Operates(_)) => self.fold_from(keep, used),
            Some(Frame::Holds(_) | Frame::Returns(_) | Frame::Encloses(_, _) | Frame::Marks(_, _))
            | None => Ok(Step::GivesUp),
        }
    }

    /// Folds the trees since the operand before the link begins.
    fn fold_from(&mut self, keep: Keep, used: &ChainBuilder) -> Result<Step, AllocError>
        ensures { IfOk result (λ step. Does (tape_unlinked_from keep used.now (shown self.old) (shown self.old).stack (begin_of (shown self.old).stack)) step (shown self.new)) }
    {
        let Some(begin) = self.begin() else {
            return Ok(Step::GivesUp);
        };
        if begin > self.trees.len() {
            return Ok(Step::GivesUp);
        }
        if fold(&mut self.trees, keep, used, begin)? {
            Ok(Step::GoesOn)
        } else {
            Ok(Step::GivesUp)
        }
    }
}
