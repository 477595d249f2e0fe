//! The arms of tables, by the next character.

ghost use Rattle.std.specs.Prelude.{◌≡◌, Some, IfSome};
ghost use Rattle.pg_machine_plan.specs.Plans.{chosen};
ghost use Rattle.pg_machine_plan.specs.Verdicts.{next_of, slot};

use pg_machine_plan::{Arm, Plan};

/// The arm of a table for the next character, if there is one.
pub(crate) fn arm_for(plan: &Plan, table: usize, next: Option<char>) -> Option<Arm>
    ensures { IfSome result (λ arm. chosen plan.now table next ≡ Some arm) }
{
    let first = table.checked_mul(130)?;
    let place = first.checked_add(slot_of(next))?;
    plan.arms().get(place).copied()
}

/// The place in a table for the next character.
fn slot_of(next: Option<char>) -> usize
    ensures { result ≡ slot (next_of next) }
{
    match next {
        Some(c) => { if c < '\u{80}' { c as usize } else { 128 } }
        None => 129,
    }
}
