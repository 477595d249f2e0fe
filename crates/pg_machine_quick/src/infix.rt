//! Infix operators of rows.

ghost use Rattle.std.specs.Prelude.{◌≡◌, ◌+◌, None, Some, IfOk, IfSome};
ghost use Rattle.pg_grammar_form.specs.declared.decl.Role.TheVariants.{InfixRight, InfixLeft, InfixNone};
ghost use Rattle.pg_machine_quick.specs.Looks.{given_of, IsLook};
ghost use Rattle.pg_machine_quick.specs.Running.{shown, Does};
ghost use Rattle.pg_machine_quick.specs.Tape.{begin_of, found_at, tape_awaited, tape_joined, tape_first_joined, tape_replaced, tape_replaced_last, tape_left_joined, tape_infixed};
ghost use Rattle.pg_table.specs.Tables.{Table};

use crate::context::Look;
use crate::frame::{Frame, Operation};
use crate::operators::Found;
use crate::running::Running;
use crate::step::Step;
use pg_grammar_form::{OperatorBuilders, Role};
use pg_machine_plan::Keep;
use pg_text::Text;
use std::alloc::{AllocError, Global};

impl<'a> Running<'a> {
    /// An infix operator waits, if one was read.
    fn join(&mut self, row: usize, role: Role, found: Option<Found>) -> Result<Step, AllocError>
        ensures { IfOk result (λ step. Does (tape_joined row role (shown self.old) found) step (shown self.new)) }
    {
        match found {
            Some(found) => match infix_rank(row) {
                Some(rank) => self.wait(rank, role, found),
                None => Ok(Step::GivesUp),
            },
            None => Ok(self.pass(2)),
        }
    }

    /// The first that was read waits: one that associates to the right, to the left, or to neither side.
    fn join_first(
        &mut self,
        row: usize,
        right: Option<Found>,
        left: Option<Found>,
        non: Option<Found>,
    ) -> Result<Step, AllocError>
        ensures { IfOk result (λ step. Does (tape_first_joined row (shown self.old) right left non) step (shown self.new)) }
    {
        match right {
            Some(_) => self.join(row, Role::InfixRight, right),
            None => match left {
                Some(_) => self.join(row, Role::InfixLeft, left),
                None => self.join_non(row, non),
            },
        }
    }

    /// One that associates to neither side waits, if it was read; otherwise nothing of the row waits.
    fn join_non(&mut self, row: usize, non: Option<Found>) -> Result<Step, AllocError>
        ensures { IfOk result (λ step. Does (tape_first_joined row (shown self.old) None None non) step (shown self.new)) }
    {
        match non {
            Some(_) => self.join(row, Role::InfixNone, non),
            None => Ok(self.pass(3)),
        }
    }

    /// An operator that associates to the left waits in the place of the one before it, which is applied, if one was read.
    fn join_left(
        &mut self,
        alloc: Global,
        keep: Keep,
        builders: &OperatorBuilders,
        text: &Text,
        row: usize,
        found: Option<Found>,
    ) -> Result<Step, AllocError>
        ensures { IfOk result (λ step. Does (tape_left_joined text.now keep builders.now row (shown self.old) found) step (shown self.new)) }
    {
        match found {
            Some(found) => self.replace_last(alloc, keep, builders, text, row, found),
            None => Ok(self.pass(2)),
        }
    }

    /// What waits last is applied, and an operator that was read waits in its place.
    fn replace_last(
        &mut self,
        alloc: Global,
        keep: Keep,
        builders: &OperatorBuilders,
        text: &Text,
        row: usize,
        found: Found,
    ) -> Result<Step, AllocError>
        ensures { IfOk result (λ step. Does (tape_replaced_last text.now keep builders.now row (shown self.old) found (shown self.old).stack) step (shown self.new)) }
    {
        match self.frames.pop() {
            Some(Frame::Operates(operation)) => {
                self.replace(alloc, keep, builders, text, row, operation, found)
            }
            Some(Frame::Holds(_) | Frame::Returns(_) | Frame::Encloses(_, _) | Frame::Marks(_, _))
            | None => Ok(Step::GivesUp),
        }
    }

    /// An operator that waited is applied, and another one waits.
    fn replace(
        &mut self,
        alloc: Global,
        keep: Keep,
        builders: &OperatorBuilders,
        text: &Text,
        row: usize,
        operation: Operation,
        found: Found,
    ) -> Result<Step, AllocError>
        ensures { IfOk result (λ step. Does (tape_replaced text.now keep builders.now row operation found (shown self.old) (shown self.old).stack (begin_of (shown self.old).stack)) step (shown self.new)) }
    {
        let applied = self.apply(alloc, keep, builders, text, Role::InfixLeft, operation)?;
        match applied {
            Step::GoesOn => self.join(row, Role::InfixLeft, Some(found)),
            Step::GivesUp | Step::Stops => Ok(Step::GivesUp),
        }
    }

    /// What may follow an operand of a row, by what waits.
    pub(crate) fn infix(
        &mut self,
        look: Look<'_>,
        keep: Keep,
        builders: &OperatorBuilders,
        row: usize,
    ) -> Result<Step, AllocError>
        requires look { IsLook look }
        requires place { look.place ≡ self.old.place }
        ensures { IfOk result (λ step. (table : Table) → table.operators ≡ look.entry.context.operators.now → Does (tape_infixed (given_of look.entry.context) table keep builders.now row (shown self.old) (tape_awaited (row + row + 1) (shown self.old).stack)) step (shown self.new)) }
    {
        let Some(rank) = infix_rank(row) else {
            return Ok(Step::GivesUp);
        };
        match self.awaited(rank) {
            Some(role) => self.infix_after(look, keep, builders, row, role),
            None => self.first_infix(look, row),
        }
    }

    /// What may follow the first operand of a row.
    fn first_infix(&mut self, look: Look<'_>, row: usize) -> Result<Step, AllocError>
        requires look { IsLook look }
        requires place { look.place ≡ self.old.place }
        ensures { IfOk result (λ step. (table : Table) → table.operators ≡ look.entry.context.operators.now → Does (tape_first_joined row (shown self.old) (found_at (given_of look.entry.context) table self.old.place row InfixRight) (found_at (given_of look.entry.context) table self.old.place row InfixLeft) (found_at (given_of look.entry.context) table self.old.place row InfixNone)) step (shown self.new)) }
    {
        let Some(number) = row.checked_add(1) else {
            return Ok(Step::GivesUp);
        };
        let right = look.read(number, Role::InfixRight);
        let left = look.read(number, Role::InfixLeft);
        let non = look.read(number, Role::InfixNone);
        self.join_first(row, right, left, non)
    }

    /// What may follow another operand, where an operator of this role waits.
    fn infix_after(
        &mut self,
        look: Look<'_>,
        keep: Keep,
        builders: &OperatorBuilders,
        row: usize,
        role: Role,
    ) -> Result<Step, AllocError>
        requires look { IsLook look }
        requires place { look.place ≡ self.old.place }
        ensures { IfOk result (λ step. (table : Table) → table.operators ≡ look.entry.context.operators.now → Does (tape_infixed (given_of look.entry.context) table keep builders.now row (shown self.old) (Some role)) step (shown self.new)) }
    {
        let Some(number) = row.checked_add(1) else {
            return Ok(Step::GivesUp);
        };
        let context = look.context;
        match role {
            Role::InfixRight => {
                self.join(row, Role::InfixRight, look.read(number, Role::InfixRight))
            }
            Role::InfixLeft => {
                let found = look.read(number, Role::InfixLeft);
                self.join_left(context.alloc, keep, builders, context.text, row, found)
            }
            Role::InfixNone => Ok(self.pass(2)),
            Role::Prefix | Role::Postfix => Ok(Step::GivesUp),
        }
    }
}

/// The rank of an infix operator of a row.
pub(crate) fn infix_rank(row: usize) -> Option<usize>
    ensures { IfSome result (λ rank. rank ≡ row + row + 1) }
{
    row.checked_add(row)?.checked_add(1)
}
