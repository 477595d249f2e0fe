//! Reading a text where an operator may stand.

ghost use Rattle.std.specs.Prelude.{◌≡◌, List, [], None, Some, false, IfSome};
ghost use Rattle.std.specs.Option.{option_map};
ghost use Rattle.pg_grammar_form.specs.Operators.{Operator};
ghost use Rattle.pg_expand.specs.Lookups.{IsLookupOf};
ghost use Rattle.pg_grammar_form.specs.declared.decl.Role.{Role as Kind};
ghost use Rattle.pg_language_operators.specs.Standings.{has_row, read_of, reads, Stands};

use pg_expand::{Lookup, RowOperator};
use pg_grammar_form::{Decl, OperatorsItem, Role};
use pg_grammar_value::Grammar;
use pg_language_declarations::{past_gap, run_at};
use pg_text::Text;

/// An operator that was read.
#[derive(Clone, Copy)]
pub struct Read<'o, 't> {
    pub operator: &'o Decl,
    /// Its symbol, as it stands in the text.
    pub symbol: &'t [char],
    /// The place after the operator and its gap.
    pub end: usize,
}

/// What a place has, looked up: the operators whose symbol is the run there.
#[derive(Clone, Copy)]
pub struct Standing<'o, 't> {
    found: &'o [RowOperator],
    /// The run of operator characters, if any operator was found.
    run: &'t [char],
    /// The place after the run and its gap, if any operator was found.
    end: usize,
}

/// Reads and looks up the run at the place of the text. An empty run isn't an operator, and there is nothing at the end. The caller owes that the operators
/// item is the grammar's. It takes no memory.
pub fn standing_at<'o, 't>(
    grammar: &Grammar,
    text: &'t Text,
    item: &OperatorsItem,
    lookup: &'o Lookup,
    place: usize,
) -> Standing<'o, 't>
    requires { grammar.now.operators ≡ Some item.now }
    ensures { (operators : List Operator) → IsLookupOf operators lookup.now → Stands grammar.now text.now item.now operators place result }
{
    if text.len() < place {
        return nothing(place);
    }
    let run = run_at(grammar, text, item, place);
    if run.is_empty() {
        return nothing(place);
    }
    let found = lookup.find(run);
    if found.is_empty() {
        return nothing(place);
    }
    let end = past_gap(grammar, text, item, place + run.len());
    Standing { found, run, end }
}

/// The place has no operator.
fn nothing<'o, 't>(place: usize) -> Standing<'o, 't>
    ensures { result.found.now ≡ [] }
{
    Standing {
        found: &[],
        run: &[],
        end: place,
    }
}

impl<'o, 't> Standing<'o, 't> {
    /// The operator read for a row, numbered from 1, the tightest, and a role: the first of the row's operators of that role whose symbol is the run. It
    /// takes no memory.
    pub fn read(&self, row: usize, role: Role) -> Option<Read<'o, 't>>
        ensures read { option_map read_of result ≡ reads self.now row role }
        ensures symbol { IfSome result (λ r. r.symbol.now ≡ self.now.run.now) }
    {
        let found = self.found.iter().find(|found| found.is_of(row, role))?;
        Some(Read {
            operator: &found.operator,
            symbol: self.run,
            end: self.end,
        })
    }

    /// Whether an operator of the row, numbered from 1, is among those whose symbol is the run, whatever its role. Where none is, nothing is read for the row. It
    /// takes no memory.
    #[inline]
    pub fn has_row(&self, row: usize) -> bool
        ensures found { result ≡ has_row row self.now.found.now }
        ensures none { result ≡ false → (role : Kind) → reads self.now row role ≡ None }
    {
        is_any_of(self.found, row)
    }
}

/// Whether one of these operators is of the row.
#[inline]
fn is_any_of(found: &[RowOperator], row: usize) -> bool
    ensures { result ≡ has_row row found.now }
{
    found.iter().any(|found| found.row == row)
}
