//! Operators that the rows of an expression read.

ghost use Rattle.std.specs.Prelude.{◌≡◌, ℕ, suc, List, option_map};
ghost use Rattle.pg_expand.specs.Rows.{of_role, row_numbered};
ghost use Rattle.pg_grammar_form.specs.Operators.{Operator};
ghost use Rattle.pg_grammar_form.specs.declared.operators_item.OperatorsItem.{OperatorsItem as Item};
ghost use Rattle.pg_grammar_value.specs.Grammar.{Grammar as Value};
ghost use Rattle.pg_language.specs.OperatorReads.{read_at};
ghost use Rattle.pg_language_operators.specs.Standings.{Stands};
ghost use Rattle.pg_machine_quick.specs.Tape.{found_of};

use pg_grammar_form::Role;
use pg_language_operators::Standing;

/// An operator that was read.
#[derive(Clone, Copy)]
pub struct Found {
    /// How many characters its symbol has.
    pub count: usize,
    /// The place after it and its gap.
    pub end: usize,
}

/// The operator of a row and a role that stands there, if one does.
pub(crate) fn read_from(standing: Standing<'_, '_>, number: usize, role: Role) -> Option<Found>
    ensures { (g : Value) (text : List ℕ) (item : Item) (operators : List Operator) (i row : ℕ) → Stands g text item operators i standing.entry → number ≡ suc row → result ≡ option_map found_of (read_at g text item (of_role role (row_numbered operators (suc row))) i) }
{
    match standing.read(number, role) {
        Some(read) => Some(Found {
            count: read.symbol.len(),
            end: read.end,
        }),
        None => None,
    }
}
