//! The operators in force where an expression begins, with what its rows need to know of them.
//!
//! The look-up and the roles of the rows are those of the operators, which is an invariant of the type. The machine makes them once for a table, and all
//! expressions that begin with that table share them.

ghost use Rattle.std.specs.Prelude.{◌≡◌, ◌↔◌, IsTrue, [], Some, length, map, slice_get, IfOk};
ghost use Rattle.pg_expand.specs.Rows.{by_role, row_numbered, rows_of};
ghost use Rattle.pg_table.specs.Rows.{rows};
ghost use Rattle.pg_language_operators.specs.RowRoles.{is_any, roles_of};
ghost use Rattle.pg_language_operators.specs.Standings.{Stands};

use crate::standing::{Standing, standing_at};
use pg_expand::{Lookup, Operators, Row, expand};
use pg_grammar_form::{Decl, NodeId, OperatorsItem};
use pg_grammar_value::Grammar;
use pg_table::Table;
use pg_text::Text;
use std::alloc::{AllocError, Global};
use std::marker::Model;

/// The roles for which a row has operators.
#[derive(Clone, Copy)]
pub struct RowRoles {
    pub right: bool,
    pub left: bool,
    pub non: bool,
    pub prefix: bool,
    pub postfix: bool,
}

/// The operators of a table, in order, with their look-up and the roles of their rows; seen as the operators.
#[derive(Drop)]
pub struct InForce {
    operators: Vec<Decl>,
    lookup: Lookup,
    /// The roles of each row, the tightest first.
    roles: Vec<RowRoles>,
}

impl Model for InForce {
    ghost use Rattle.std.specs.Prelude.{List};
    ghost use Rattle.pg_grammar_form.specs.Operators.{Operator};
    ghost use Rattle.pg_language_operators.specs.RowRoles.{IsLaidOut};

    ghost Value = { List Operator };

    ghost view = { λ f. f.operators.items };

    ghost invariant = { λ f. IsLaidOut f.operators.items f.lookup f.roles.items };
}

impl InForce {
    /// The operators of the table.
    pub fn of(alloc: Global, table: &Table) -> Result<InForce, AllocError>
        ensures { IfOk result (λ in_force. in_force ≡ table.now.operators) }
    {
        let operators = copied(alloc, table.operators())?;
        let lookup = Lookup::of(alloc, table)?;
        let roles = roles_of_rows(alloc, table)?;
        Ok(InForce {
            operators,
            lookup,
            roles,
        })
    }

    /// Whether its operators are these. It takes no memory.
    pub fn is_of(&self, operators: &[Decl]) -> bool
        ensures { IsTrue result ↔ (self.now ≡ operators.now) }
    {
        are_same(self.operators.as_slice(), operators)
    }

    /// The number of its rows. It takes no memory.
    pub fn rows(&self) -> usize
        ensures { result ≡ length (rows self.now) }
    {
        self.roles.len()
    }

    /// The roles of the row with this number, from 1, the tightest; any other number has none. It takes no memory.
    pub fn roles(&self, row: usize) -> RowRoles
        ensures { result ≡ roles_of (row_numbered self.now row) }
    {
        match row.checked_sub(1) {
            Some(index) => roles_at(self.roles.as_slice(), index).unwrap_or(no_roles()),
            None => no_roles(),
        }
    }

    /// Reads the place of the text, as [`standing_at`] does. The caller owes that the operators item is the grammar's. It takes no memory.
    pub fn standing<'t>(
        &self,
        grammar: &Grammar,
        text: &'t Text,
        item: &OperatorsItem,
        place: usize,
    ) -> Standing<'_, 't>
        requires { grammar.now.operators ≡ Some item.now }
        ensures { Stands grammar.now text.now item.now self.now place result }
    {
        standing_at(grammar, text, item, &self.lookup, place)
    }
}

/// The roles with this index, if there are any.
fn roles_at(roles: &[RowRoles], number: usize) -> Option<RowRoles>
    ensures { result ≡ slice_get roles.now number }
{
    roles.get(number).copied()
}

/// The roles of a row without operators.
fn no_roles() -> RowRoles
    ensures { result ≡ roles_of (by_role []) }
{
    RowRoles {
        right: false,
        left: false,
        non: false,
        prefix: false,
        postfix: false,
    }
}

/// The roles of each row of a table, the tightest first.
fn roles_of_rows(alloc: Global, table: &Table) -> Result<Vec<RowRoles>, AllocError>
    ensures { IfOk result (λ roles. roles.items ≡ map roles_of (rows_of table.now.operators)) }
{
    let rows = expand(alloc, table, NodeId::new(0))?;
    let mut roles = Vec::new(alloc);
    for row in rows.rows.as_slice() {
        roles.push(roles_of(row))?;
    }
    Ok(roles)
}

/// The roles of a row.
fn roles_of(row: &Row) -> RowRoles
    ensures { result ≡ roles_of row.now }
{
    RowRoles {
        right: is_any(&row.right),
        left: is_any(&row.left),
        non: is_any(&row.non),
        prefix: is_any(&row.prefix),
        postfix: is_any(&row.postfix),
    }
}

/// Whether the list has an operator.
fn is_any(operators: &Operators) -> bool
    ensures { result ≡ is_any operators.now }
{
    match operators.as_slice().first() {
        Some(_) => true,
        None => false,
    }
}

/// Copies of the operators in memory of their own.
fn copied(alloc: Global, operators: &[Decl]) -> Result<Vec<Decl>, AllocError>
    ensures { IfOk result (λ copies. copies.items ≡ operators.now) }
{
    let mut copies = Vec::with_capacity(alloc, operators.len())?;
    for operator in operators {
        copies.push(operator.copy(alloc)?)?;
    }
    Ok(copies)
}

/// Whether these are the same operators in the same order.
fn are_same(some: &[Decl], others: &[Decl]) -> bool
    ensures { IsTrue result ↔ (some.now ≡ others.now) }
{
    if some.len() != others.len() {
        return false;
    }
    for (i, operator) in some.iter().enumerate() {
        if !is_same(operator, &others[i]) {
            return false;
        }
    }
    true
}

/// Whether these are the same operator.
fn is_same(one: &Decl, other: &Decl) -> bool
    ensures { IsTrue result ↔ (one.now ≡ other.now) }
{
    one.role() == other.role()
        && one.precedence() == other.precedence()
        && one.symbol() == other.symbol()
}
