//! Turns of the code of expressions: how they begin, and operators that wait.

ghost use Rattle.std.specs.Prelude.{◌≡◌, length, IfOk, IfSome};
ghost use Rattle.pg_machine_quick.specs.Running.{shown, Does, first_frame};
ghost use Rattle.pg_machine_quick.specs.Tape.{begin_of, tape_begun, tape_passed, tape_waits, tape_prefixed, tape_awaited, operation};
ghost use Rattle.pg_table.specs.Tables.{Table};

use crate::frame::{Frame, Operation};
use crate::operators::Found;
use crate::running::{Running, noted};
use crate::step::Step;
use pg_grammar_form::Role;
use pg_grammar_value::Grammar;
use pg_language_operators::InForce;
use std::alloc::AllocError;

impl<'a> Running<'a> {
    /// An expression begins, where the table has so many rows.
    pub(crate) fn begin_rows(
        &mut self,
        grammar: &Grammar,
        operators: &InForce,
        rows: usize,
    ) -> Result<Step, AllocError>
        ensures { IfOk result (λ step. (table : Table) → table.operators ≡ operators.now → Does (tape_begun rows table (shown self.old) grammar.now.operators) step (shown self.new)) }
    {
        let Some(_) = grammar.operators_item() else {
            return Ok(Step::GivesUp);
        };
        if operators.rows() == rows {
            self.hold()
        } else {
            Ok(Step::GivesUp)
        }
    }

    /// Goes on after so many instructions.
    pub(crate) fn pass(&mut self, count: usize) -> Step
        ensures { Does (tape_passed count (shown self.old)) result (shown self.new) }
    {
        let Some(pc) = self.pc.checked_add(count) else {
            return Step::GivesUp;
        };
        self.pc = pc;
        Step::GoesOn
    }

    /// An operator that was read waits.
    pub(crate) fn wait(&mut self, rank: usize, role: Role, found: Found) -> Result<Step, AllocError>
        ensures { IfOk result (λ step. Does (tape_waits rank role (shown self.old) found) step (shown self.new)) }
    {
        let Some(pc) = self.pc.checked_add(1) else {
            return Ok(Step::GivesUp);
        };
        let Some(operation) = self.operation(rank, role, found.count) else {
            return Ok(Step::GivesUp);
        };
        self.frames.push(Frame::Operates(operation))?;
        self.pc = pc;
        self.place = found.end;
        self.taken = true;
        Ok(Step::GoesOn)
    }

    /// An operator of the next characters, so many. None where a number is too great for a frame.
    pub(crate) fn operation(&self, rank: usize, role: Role, count: usize) -> Option<Operation>
        ensures { IfSome result (λ waits. waits ≡ operation rank role self.now.place count (length self.now.trees)) }
    {
        let rank = noted(rank)?;
        let place = noted(self.place)?;
        let count = noted(count)?;
        let trees = noted(self.trees.len())?;
        Some(Operation {
            rank,
            role,
            place,
            count,
            trees,
        })
    }

    /// A prefix operator of a row waits, if one was read.
    pub(crate) fn prefix(&mut self, row: usize, found: Option<Found>) -> Result<Step, AllocError>
        ensures { IfOk result (λ step. Does (tape_prefixed row (shown self.old) found) step (shown self.new)) }
    {
        match found {
            Some(found) => match row.checked_add(row) {
                Some(rank) => self.wait(rank, Role::Prefix, found),
                None => Ok(Step::GivesUp),
            },
            None => Ok(self.pass(1)),
        }
    }

    // ---- what waits

    /// What waits last.
    pub(crate) fn last(&self) -> Option<Frame>
        ensures { result ≡ first_frame (shown self.now).stack }
    {
        self.frames.last().copied()
    }

    /// Where the trees of the operand that is being read begin.
    pub(crate) fn begin(&self) -> Option<usize>
        ensures { result ≡ begin_of (shown self.now).stack }
    {
        match self.last() {
            Some(Frame::Holds(count)) => Some(count as usize),
            Some(Frame::Operates(operation)) => Some(operation.trees as usize),
            Some(Frame::Returns(_) | Frame::Encloses(_, _) | Frame::Marks(_, _)) | None => None,
        }
    }

    /// The role of the operator that waits last, if its rank is this.
    pub(crate) fn awaited(&self, rank: usize) -> Option<Role>
        ensures { result ≡ tape_awaited rank (shown self.now).stack }
    {
        match self.last() {
            Some(Frame::Operates(operation)) => {
                if operation.rank as usize == rank {
                    Some(operation.role)
                } else {
                    None
                }
            }
            Some(Frame::Holds(_) | Frame::Returns(_) | Frame::Encloses(_, _) | Frame::Marks(_, _))
            | None => None,
        }
    }
}
