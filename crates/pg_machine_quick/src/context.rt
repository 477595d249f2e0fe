//! What stays the same during a run, and what stands at a place of its text.

ghost use Rattle.std.specs.Prelude.{◌≡◌, ℕ, suc, true, false, IfSome};
ghost use Rattle.pg_grammar_form.specs.declared.decl.Role.{Role as Kind};
ghost use Rattle.pg_machine_quick.specs.Looks.{given_of, IsLook, NoneRead};
ghost use Rattle.pg_machine_quick.specs.Tape.{found_at};
ghost use Rattle.pg_table.specs.Tables.{Table};

use crate::landmarks::MarkedPlan;
use crate::operators::{Found, read_from};
use pg_grammar_classes::ClassSite;
use pg_grammar_form::Role;
use pg_grammar_value::Grammar;
use pg_language_operators::{InForce, Standing};
use pg_text::Text;
use std::alloc::Global;

/// What stays the same during a run, handed on to each of its turns.
#[derive(Clone, Copy)]
pub(crate) struct Context<'r> {
    pub(crate) alloc: Global,
    pub(crate) grammar: &'r Grammar,
    /// The plan of the grammar, with what is known of its code.
    pub(crate) plan: &'r MarkedPlan<'r>,
    /// The operators of the table in force.
    pub(crate) operators: &'r InForce,
    pub(crate) text: &'r Text,
}

/// What stands at a place of the text, where the rows of an expression look for their operators.
#[derive(Clone, Copy)]
pub(crate) struct Look<'r> {
    pub(crate) context: Context<'r>,
    pub(crate) place: usize,
    pub(crate) standing: Standing<'r, 'r>,
}

/// What stands at the place. None where the grammar has no operators.
pub(crate) fn look_at<'r>(context: Context<'r>, place: usize) -> Option<Look<'r>>
    ensures look { IfSome result IsLook }
    ensures context { IfSome result (λ look. look.context ≡ context.entry) }
    ensures place { IfSome result (λ look. look.place ≡ place) }
{
    let item = context.grammar.operators_item()?;
    let standing = context
        .operators
        .standing(context.grammar, context.text, item, place);
    Some(Look {
        context,
        place,
        standing,
    })
}

/// Whether no operator can stand at the place, since no operator character does. Then none is read there.
#[inline(always)]
pub(crate) fn is_bare(context: Context<'_>, place: usize) -> bool
    ensures { result ≡ true → (row : ℕ) (role : Kind) → NoneRead context.entry place row role }
{
    let Some(_item) = context.grammar.operators_item() else {
        return false;
    };
    match context.text.char_at(place) {
        Some(c) => !context.grammar.contains(ClassSite::Operators, c),
        None => true,
    }
}

impl<'r> Look<'r> {
    /// The operator of a row, numbered from 1, the tightest, and a role that is read at the place, if one is.
    pub(crate) fn read(&self, number: usize, role: Role) -> Option<Found>
        requires { IsLook self.now }
        ensures { (table : Table) (row : ℕ) → table.operators ≡ self.now.context.operators.now → number ≡ suc row → result ≡ found_at (given_of self.now.context) table self.now.place row role }
    {
        read_from(self.standing, number, role)
    }

    /// Whether an operator of a row, numbered from 1, the tightest, stands at the place. Where none does, none of the row is read, whatever its role.
    #[tactic(auto, using(crate::proofs::RowPasses::none_of_row))]
    pub(crate) fn has_row(&self, number: usize) -> bool
        requires { IsLook self.now }
        ensures { result ≡ false → (row : ℕ) (role : Kind) → number ≡ suc row → NoneRead self.now.context self.now.place row role }
    {
        self.standing.has_row(number)
    }
}
