//! Rows: operators of one precedence, by role.
//!
//! Only [`crate::expand`] makes rows. That a row's operators have one precedence, and those of a list one role, is a promise of that call and not an
//! invariant of these types.

ghost use Rattle.std.specs.Prelude.{◌≡◌, [], ◌∷◌, ◌++◌, List, OnOk};
ghost use Rattle.pg_grammar_form.specs.Operators.{Operator};
ghost use Rattle.pg_expand.specs.Rows.{by_role};

use pg_grammar_form::{Decl, NodeId, Role};
use std::alloc::{AllocError, Global};
use std::marker::Model;

/// A list of operators, in order.
#[derive(Drop)]
pub struct Operators {
    operators: Vec<Decl>,
}

impl Model for Operators {
    ghost use Rattle.std.specs.Prelude.{List};
    ghost use Rattle.pg_grammar_form.specs.Operators.{Operator};

    ghost Value = { List Operator };

    ghost view = { λ o. o.operators.items };
}

impl Operators {
    /// The operators, in order. It takes no memory.
    pub fn as_slice(&self) -> &[Decl]
        ensures { result.now ≡ self.now }
    {
        self.operators.as_slice()
    }

    /// The empty list, which can grow.
    fn new(alloc: Global) -> Operators
        ensures { result ≡ [] }
    {
        Operators {
            operators: Vec::new(alloc),
        }
    }

    /// Appends an operator.
    fn push(&mut self, operator: Decl) -> Result<(), AllocError>
        ensures { OnOk result (self.new ≡ self.old ++ operator ∷ []) }
    {
        self.operators.push(operator)?;
        Ok(())
    }
}

/// The operators of one precedence, by role.
#[derive(Drop)]
pub struct Row {
    /// The infix operators that associate to the right.
    pub right: Operators,
    /// Those that associate to the left.
    pub left: Operators,
    /// Those that associate to neither side.
    pub non: Operators,
    /// The prefix operators.
    pub prefix: Operators,
    /// The postfix operators.
    pub postfix: Operators,
}

impl Row {
    /// A row without operators.
    pub(crate) fn new(alloc: Global) -> Row
        ensures { result ≡ by_role [] }
    {
        Row {
            right: Operators::new(alloc),
            left: Operators::new(alloc),
            non: Operators::new(alloc),
            prefix: Operators::new(alloc),
            postfix: Operators::new(alloc),
        }
    }

    /// Appends an operator to those of its role.
    pub(crate) fn add(&mut self, operator: Decl) -> Result<(), AllocError>
        ensures { OnOk result ((before : List Operator) → self.old ≡ by_role before → self.new ≡ by_role (before ++ operator ∷ [])) }
    {
        match operator.role() {
            Role::InfixRight => self.right.push(operator),
            Role::InfixLeft => self.left.push(operator),
            Role::InfixNone => self.non.push(operator),
            Role::Prefix => self.prefix.push(operator),
            Role::Postfix => self.postfix.push(operator),
        }
    }
}

/// A list of rows, the tightest first.
#[derive(Drop)]
pub struct RowList {
    rows: Vec<Row>,
}

impl Model for RowList {
    ghost use Rattle.std.specs.Prelude.{List};
    ghost use Rattle.pg_expand.specs.declared.rows.Row.{Row};

    ghost Value = { List Row };

    ghost view = { λ r. r.rows.items };
}

impl RowList {
    /// The rows, the tightest first. It takes no memory.
    pub fn as_slice(&self) -> &[Row]
        ensures { result.now ≡ self.now }
    {
        self.rows.as_slice()
    }

    /// The list of these rows.
    pub(crate) fn new(rows: Vec<Row>) -> RowList
        ensures { result ≡ rows.items }
    {
        RowList { rows }
    }
}

/// A table's rows over a term, as the parser of an expression needs them.
#[derive(Drop)]
pub struct Rows {
    /// The node of the term.
    pub term: NodeId,
    /// The rows, the tightest first.
    pub rows: RowList,
}
