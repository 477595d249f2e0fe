//! The expansion of a table: its rows over a term.

ghost use Rattle.std.specs.Prelude.{◌≡◌, IfOk};
ghost use Rattle.pg_table.specs.Rows.{holds};
ghost use Rattle.pg_expand.specs.Rows.{row_at, rows_of};
ghost use Rattle.pg_expand.specs.Laws.{DeriveFittingTrees};

use crate::rows::{Row, RowList, Rows};
use pg_grammar_form::{Decl, NodeId};
use pg_table::{PRECEDENCES, Table};
use std::alloc::{AllocError, Global};

/// The rows of a table over a term: the precedences that have an operator, 9 first, each with its operators by role, each role's in the table's order.
///
/// Read as a grammar, the rows derive exactly the trees that fit the table.
pub fn expand(alloc: Global, table: &Table, term: NodeId) -> Result<Rows, AllocError>
    ensures term { IfOk result (λ rows. rows.term ≡ term) }
    ensures rows { IfOk result (λ rows. rows.rows ≡ rows_of table.now.operators) }
    ensures fitting { IfOk result (λ rows. DeriveFittingTrees rows.rows table.now.operators) }
{
    let operators = table.operators();
    let mut rows = Vec::new(alloc);
    for precedence in &PRECEDENCES {
        if holds(operators, *precedence) {
            rows.push(row_at(alloc, operators, *precedence)?)?;
        }
    }
    Ok(Rows {
        term,
        rows: RowList::new(rows),
    })
}

/// Whether one of the operators has the precedence.
pub(crate) fn holds(operators: &[Decl], precedence: u8) -> bool
    ensures { result ≡ holds operators.now precedence }
{
    operators
        .iter()
        .any(|operator| operator.precedence() == precedence)
}

/// The row of a precedence.
fn row_at(alloc: Global, operators: &[Decl], precedence: u8) -> Result<Row, AllocError>
    ensures { IfOk result (λ row. row ≡ row_at operators.now precedence) }
{
    let mut row = Row::new(alloc);
    for operator in operators {
        if operator.precedence() == precedence {
            row.add(operator.copy(alloc)?)?;
        }
    }
    Ok(row)
}
