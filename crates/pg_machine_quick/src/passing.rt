//! The code of rows where it only passes.
//!
//! What passes is gone over by landmarks: the prefix operators of all rows where no operator can stand, and the ends of rows. One instruction alone isn't worth a
//! look of its own: it is done as any other.

ghost use Rattle.std.specs.Prelude.{◌≡◌, ◌+◌, ℕ, suc, true, slice_get, Some, IfSome};
ghost use Rattle.pg_grammar_form.specs.declared.decl.Role.TheVariants.{Postfix};
ghost use Rattle.pg_machine_plan.specs.declared.instruction.Instruction.TheVariants.{ReadPrefix};
ghost use Rattle.pg_machine_quick.specs.Landmarks.{ArePrefixes, IsRowEnd};
ghost use Rattle.pg_machine_quick.specs.Looks.{IsLook, IsPassedTo, NoneRead, PassesEnd, program_of, unread_length};
ghost use Rattle.pg_machine_quick.specs.Ran.{LeadsTo};
ghost use Rattle.pg_machine_quick.specs.Running.{shown};
ghost use Rattle.pg_machine_quick.specs.Tape.{tape_awaited};
ghost use Rattle.pg_table.specs.Tables.{Table};

use crate::context::{Context, Look, is_bare};
use crate::infix::infix_rank;
use crate::landmarks::Landmark;
use crate::rows::builders_at;
use crate::running::Running;
use pg_grammar_form::{NodeId, Role};
use pg_machine_plan::{Instruction, Plan};

/// How many landmarks are passed at once.
const AT_ONCE: usize = 1_000;

/// How many prefix operators, one row after another, are one landmark: a table has at most ten rows.
const MOST_ROWS: usize = 10;

impl<'a> Running<'a> {
    /// The place in the code up to which it only passes: nothing is read at the place of the text, and nothing that waits is applied.
    pub(crate) fn passed(&self, look: Look<'_>) -> usize
        requires look { IsLook look }
        requires place { look.place ≡ self.now.place }
        ensures { (table : Table) → table.operators ≡ look.entry.context.operators.now → LeadsTo (program_of look.entry.context) table (shown self.now) (record (shown self.now) { pc = result }) }
    {
        let mut pc = self.pc;
        for _ in 0..AT_ONCE {
            match self.next(look, pc) {
                Some(next) => pc = next,
                None => return pc,
            }
        }
        pc
    }

    /// Where it goes on after the prefix operators of rows that are read there, if no operator can stand at the place: so nothing has to be looked up.
    #[inline(always)]
    pub(crate) fn past_prefixes(&self, context: Context<'_>) -> Option<usize>
        ensures { IfSome result (IsPassedTo context.entry (shown self.now) self.now.pc) }
    {
        let Some(Landmark::BeginsPrefixes(count)) = context.plan.landmark(self.pc) else {
            return None;
        };
        let next = self.pc.checked_add(*count)?;
        if is_bare(context, self.place) {
            Some(next)
        } else {
            None
        }
    }

    /// Where it goes on after the end of a row that is there, or after a part of it, if it only passes.
    #[inline(always)]
    fn next(&self, look: Look<'_>, pc: usize) -> Option<usize>
        requires look { IsLook look }
        requires place { look.place ≡ self.now.place }
        ensures { IfSome result (IsPassedTo look.entry.context (shown self.now) pc) }
    {
        match look.context.plan.landmark(pc) {
            Some(Landmark::EndsRow(end)) => pc.checked_add(self.row_end_length(look, *end)?),
            Some(
                Landmark::Plain
                | Landmark::BeginsPrefixes(_)
                | Landmark::BeginsToken(_)
                | Landmark::BeginsWrapped(_),
            )
            | None => None,
        }
    }

    /// How many instructions of the end of a row only pass: all, or those before the first that may do something else.
    #[inline(always)]
    fn row_end_length(&self, look: Look<'_>, end: RowEnd) -> Option<usize>
        requires look { IsLook look }
        requires place { look.place ≡ self.now.place }
        ensures { IfSome result (PassesEnd look.entry.context (shown self.now) end) }
    {
        let _builders = builders_at(look.context.grammar, end.node)?;
        let number = end.row.checked_add(1)?;
        let infix = infix_rank(end.row)?;
        match self.awaited(end.rank) {
            Some(_) => None,
            None => {
                if look.has_row(number) {
                    before_infix(look, number)
                } else {
                    Some(self.unread_length(infix))
                }
            }
        }
    }

    /// The same where nothing of the row stands there, whose infix operators have this rank.
    #[inline(always)]
    fn unread_length(&self, rank: usize) -> usize
        ensures { result ≡ unread_length (tape_awaited rank (shown self.now).stack) }
    {
        match self.awaited(rank) {
            Some(Role::InfixRight | Role::InfixLeft | Role::InfixNone) => 4,
            Some(Role::Prefix | Role::Postfix) => 2,
            None => 5,
        }
    }
}

/// How many instructions of the end of a row stand before its infix operator, if no postfix operator of the row is read.
fn before_infix(look: Look<'_>, number: usize) -> Option<usize>
    requires look { IsLook look }
    ensures { IfSome result (λ count. (row : ℕ) → number ≡ suc row → NoneRead look.entry.context look.entry.place row Postfix × (count ≡ 2)) }
{
    match look.read(number, Role::Postfix) {
        Some(_) => None,
        None => Some(2),
    }
}

/// The end of a row: an operator that waits is applied if its rank is this, and then a postfix operator and an infix operator of the row are read.
#[derive(Clone, Copy)]
pub struct RowEnd {
    pub node: NodeId,
    pub row: usize,
    pub rank: usize,
}

/// The end of a row of an expression, if its three instructions are there.
pub(crate) fn row_end_at(plan: &Plan, pc: usize) -> Option<RowEnd>
    ensures { IfSome result (IsRowEnd plan.now pc) }
{
    let Some(Instruction::Settle(_, node, rank)) = plan.code().get(pc) else {
        return None;
    };
    let second = pc.checked_add(1)?;
    let Some(Instruction::ReadPostfix(_, postfix, row)) = plan.code().get(second) else {
        return None;
    };
    let third = second.checked_add(1)?;
    let Some(Instruction::ReadInfix(_, infix, same)) = plan.code().get(third) else {
        return None;
    };
    if postfix.index() == node.index() && infix.index() == node.index() && *same == *row {
        Some(RowEnd {
            node: *node,
            row: *row,
            rank: *rank,
        })
    } else {
        None
    }
}

/// How many prefix operators are read from there on, one row after another.
pub(crate) fn prefixes_at(plan: &Plan, pc: usize) -> usize
    ensures { ArePrefixes plan.now pc result }
{
    for count in 0..MOST_ROWS {
        if !is_prefix_at(plan, pc, count) {
            return count;
        }
    }
    MOST_ROWS
}

/// Whether a prefix operator is read so many instructions after a place.
fn is_prefix_at(plan: &Plan, pc: usize, count: usize) -> bool
    ensures { result ≡ true → (row : ℕ) × (slice_get plan.now.code (pc + count) ≡ Some (ReadPrefix row)) }
{
    let Some(place) = pc.checked_add(count) else {
        return false;
    };
    match plan.code().get(place) {
        Some(Instruction::ReadPrefix(_)) => true,
        Some(_) | None => false,
    }
}
