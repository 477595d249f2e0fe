//! What comes next in a text, as far as tables tell it apart.

ghost use Rattle.std.specs.Prelude.{◌≡◌, ◌+◌, ◌*◌, Some, IfSome, slice_get};
ghost use Rattle.pg_machine_plan.specs.Columns.{next_at};
ghost use Rattle.pg_machine_plan.specs.Plans.{chosen};
ghost use Rattle.pg_machine_plan.specs.Verdicts.{next_of, slot};

use crate::instruction::Arm;
use crate::plan::Plan;

/// What comes next, as far as tables tell it apart.
#[derive(Clone, Copy)]
pub enum Next {
    /// This character, which is one of ASCII.
    Ascii(char),
    /// A character that isn't one of ASCII.
    Other,
    /// None: the text ends.
    End,
}

impl Next {
    /// What tables see of a character, or of the end.
    #[inline]
    pub fn of(next: Option<char>) -> Next
        ensures { result ≡ next_of next }
    {
        match next {
            Some(c) => {
                if (c as u32) < 128 {
                    Next::Ascii(c)
                } else {
                    Next::Other
                }
            }
            None => Next::End,
        }
    }

    /// What has this place in a table. Past the others it is the end.
    pub fn at(slot: usize) -> Next
        ensures { result ≡ next_at slot }
    {
        if slot < 128 {
            Next::Ascii(slot as u8 as char)
        } else if slot == 128 {
            Next::Other
        } else {
            Next::End
        }
    }

    /// Its place in a table.
    #[inline]
    pub fn slot(self) -> usize
        ensures { result ≡ slot self }
    {
        match self {
            Next::Ascii(c) => c as usize,
            Next::Other => 128,
            Next::End => 129,
        }
    }
}

/// The arm of a table for the next character, if there is one.
#[inline]
pub fn chosen(plan: &Plan, table: usize, next: Option<char>) -> Option<Arm>
    ensures { IfSome result (λ arm. chosen plan.now table next ≡ Some arm) }
{
    arm_at(plan, table, Next::of(next))
}

/// The arm of a table for what comes next, if there is one.
#[inline]
pub(crate) fn arm_at(plan: &Plan, table: usize, next: Next) -> Option<Arm>
    ensures { IfSome result (λ arm. slice_get plan.now.arms (130 * table + slot next) ≡ Some arm) }
{
    let first = table.checked_mul(130)?;
    let place = first.checked_add(next.slot())?;
    plan.arms().get(place).copied()
}
