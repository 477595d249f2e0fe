//! A table's operators by their symbols, each with its row.
//!
//! A look-up is made once for an expression. Wherever an operator may stand, the run of operator characters is looked up once, and each row picks its own
//! operators from those found. That gives the same as searching the row's operators ([`crate::rows_and_lookups_agree`]).

ghost use Rattle.std.specs.Prelude.{◌≡◌, ◌<◌, ℕ, [], slice_index, IfOk, OnOk};
ghost use Rattle.pg_table.specs.Rows.{row_of};
ghost use Rattle.pg_expand.specs.Rows.{is_role};

use crate::expansion::holds;
use indexmap::IndexMap;
use pg_grammar_form::{Decl, Role};
use pg_table::Table;
use std::alloc::{AllocError, Global};
use std::marker::Model;

/// How many precedences there are.
const PRECEDENCE_COUNT: usize = 10;

/// An operator of a table with its row.
#[derive(Drop)]
pub struct RowOperator {
    /// The number of the operator's row, from 1, the tightest.
    pub row: usize,
    pub operator: Decl,
}

impl RowOperator {
    ghost use Rattle.pg_expand.specs.Lookups.{is_of};

    /// Whether the operator is of this row and role. It takes no memory.
    pub fn is_of(&self, row: usize, role: Role) -> bool
        ensures { result ≡ is_of row role self.now }
    {
        self.row == row && is_role(role, self.operator.role())
    }
}

/// The operators of a table, seen as symbols, each with its operators.
#[derive(Drop)]
pub struct Lookup {
    groups: IndexMap<Vec<char>, Vec<RowOperator>>,
}

impl Model for Lookup {
    ghost use Rattle.std.specs.Prelude.{map};
    ghost use Rattle.pg_expand.specs.Lookups.{Groups};

    ghost Value = { Groups };

    ghost view = { λ l. map (λ e. (e.0.items, e.1.items)) l.groups.entries };
}

impl Lookup {
    ghost use Rattle.pg_expand.specs.Lookups.{found, IsAdded, IsLookupOf};

    /// The table's operators, each with its row.
    pub fn of(alloc: Global, table: &Table) -> Result<Lookup, AllocError>
        ensures { IfOk result (IsLookupOf table.now.operators) }
    {
        let operators = table.operators();
        Lookup::with_capacity(alloc, operators.len())?.with_all(alloc, operators)
    }

    /// The operators with this symbol, in the table's order. It finds them by hashing, and takes no memory.
    pub fn find(&self, symbol: &[char]) -> &[RowOperator]
        ensures { result.now ≡ found self.now symbol.now }
    {
        match self.groups.get(symbol) {
            Some(group) => group.as_slice(),
            None => &[],
        }
    }

    /// An empty look-up with room for `count` symbols.
    fn with_capacity(alloc: Global, count: usize) -> Result<Lookup, AllocError>
        ensures { IfOk result (λ lookup. lookup ≡ []) }
    {
        let groups = IndexMap::with_capacity(alloc, count)?;
        Ok(Lookup { groups })
    }

    /// The look-up of these operators, each with its row among them. It has to be empty before.
    fn with_all(self, alloc: Global, operators: &[Decl]) -> Result<Lookup, AllocError>
        requires { self ≡ [] }
        ensures { IfOk result (IsLookupOf operators.now) }
    {
        let numbers = row_numbers(operators);
        let mut lookup = self;
        for operator in operators {
            let row = numbers[usize::from(operator.precedence())];
            let operator = operator.copy(alloc)?;
            lookup.add(alloc, RowOperator { row, operator })?;
        }
        Ok(lookup)
    }

    /// Adds an operator after those with its symbol.
    fn add(&mut self, alloc: Global, added: RowOperator) -> Result<(), AllocError>
        ensures { OnOk result (IsAdded self.old added self.new) }
    {
        let symbol = Vec::from_slice(alloc, added.operator.symbol())?;
        let mut group = match self.groups.swap_remove(symbol.as_slice()) {
            Some(group) => group,
            None => Vec::with_capacity(alloc, 1)?,
        };
        group.push(added)?;
        self.groups.insert(symbol, group)?;
        Ok(())
    }
}

/// Whether the second role equals the first.
fn is_role(wanted: Role, role: Role) -> bool
    ensures { result ≡ is_role wanted role }
{
    wanted == role
}

/// The number of the row of each precedence.
fn row_numbers(operators: &[Decl]) -> [usize; PRECEDENCE_COUNT]
    ensures { (p : ℕ) → p < 10 → slice_index result p ≡ row_of operators.now p }
{
    let mut numbers = [0; PRECEDENCE_COUNT];
    let mut number = 0;
    for looser in 0..10u8 {
        let precedence = 9 - looser;
        if holds(operators, precedence) {
            number += 1;
        }
        numbers[usize::from(precedence)] = number;
    }
    numbers
}
