//! The operator table: the operators in force at a place of a text, in the order in which they were added.
//!
//! The number of operators is within its limit, which is at most 64, and each has a precedence from 0 to 9 and a symbol that isn't empty. These are
//! invariants of the type: code that numbers rows or reads operators relies on them. An operator is added only if [`Table::admit`] allows it. So no symbol in
//! a grammar's table is reserved, and none stands for two operators in one position.

ghost use Rattle.std.specs.Prelude.{◌≡◌, ◌≤◌, ◌↔◌, ◌&&◌, not, IfOk, IfErr, IsErrOf, OnOk, OnErr, Some, length};
ghost use Rattle.std.specs.List.{list_any};
ghost use Rattle.std.specs.Str.{bytes_eq};
ghost use Rattle.pg_table.specs.Tables.{is_prefix};

use crate::admit_fault::{AdmitFault, ExtendFault, InitialFault};
use crate::limits::{PRECEDENCES, SYMBOL_LIMIT};
use pg_grammar_form::{Decl, Role};
use pg_grammar_value::Grammar;
use pg_text::Texts;
use std::alloc::{AllocError, Global};
use std::marker::Model;

/// A table, seen as its operators, the reserved symbols, and the limit on operators.
pub struct Table {
    operators: Vec<Decl>,
    reserved: Texts,
    most: usize,
}

// Written out, so that the crates above needn't prove again how each part is dropped.
impl Drop for Table {
    fn drop(self) {
        let Table {
            operators,
            reserved,
            most: _,
        } = self;
        drop(operators);
        drop(reserved);
    }
}

impl Model for Table {
    ghost use Rattle.pg_table.specs.Tables.{Table as Parts, IsTable};

    ghost Value = { Parts };

    ghost view = { λ t. record { operators = t.operators.items; reserved = t.reserved; most = t.most } };

    ghost invariant = { λ t. IsTable (record { operators = t.operators.items; reserved = t.reserved; most = t.most }) };
}

impl Table {
    ghost use Rattle.pg_table.specs.Tables.{IsTable, whole, Admits, admit_fault, has_prefix, has_other, with_operator, first_operators, empty_table, without_operators, added_from, initial, IsRefusal, ComesFrom};
    ghost use Rattle.pg_table.specs.Rows.{holds, rows};

    /// The initial table of a grammar: its initial declarations in file order, each admitted by those before it.
    ///
    /// Otherwise the index of the first that isn't admitted, and why.
    #[tactic(auto, using(crate::proofs::Added::own_table))]
    pub fn of(alloc: Global, grammar: &Grammar) -> Result<Table, InitialFault>
        ensures ok { IfOk result (λ table. initial grammar.now ≡ whole table) }
        ensures comes { IfOk result (ComesFrom grammar.now) }
        ensures err { IfErr result (IsRefusal (initial grammar.now)) }
    {
        Table::empty(alloc, grammar)?.extended(alloc, grammar.initials())
    }

    /// The table with these declarations in order, each admitted by those before it, with these reserved symbols and this limit, at most 64. So a reader of
    /// files can check its declarations without a grammar.
    ///
    /// Otherwise the index of the first that isn't admitted, and why.
    pub fn of_declarations(
        alloc: Global,
        reserved: Texts,
        most: usize,
        decls: &[Decl],
    ) -> Result<Table, InitialFault>
        requires { most ≤ 64 }
        ensures ok { IfOk result (λ table. added_from 0 (without_operators reserved most) decls.now ≡ whole table) }
        ensures err { IfErr result (IsRefusal (added_from 0 (without_operators reserved most) decls.now)) }
    {
        let table = Table {
            operators: Vec::new(alloc),
            reserved,
            most,
        };
        table.extended(alloc, decls)
    }

    /// Whether an operator may be added; if not, the first of A1 to A5 that applies. It takes no memory.
    pub fn admit(&self, decl: &Decl) -> Result<(), AdmitFault>
        ensures ok { OnOk result (Admits self.now decl.now) }
        ensures err { IfErr result (λ fault. admit_fault self.now decl.now ≡ Some fault) }
    {
        let symbol = decl.symbol();
        let before = is_prefix(decl.role());
        if symbol.len() > SYMBOL_LIMIT {
            return Err(AdmitFault::SymbolTooLong);
        }
        if self.reserves(symbol) {
            return Err(AdmitFault::SymbolReserved);
        }
        if before && self.has_prefix(symbol) {
            return Err(AdmitFault::PrefixThere);
        }
        if !before && self.has_other(symbol) {
            return Err(AdmitFault::SymbolThere);
        }
        if self.most <= self.operators.len() {
            return Err(AdmitFault::TableFull);
        }
        Ok(())
    }

    /// The operators, in the order in which they were added: the initial ones in file order, then the declared ones. It takes no memory.
    pub fn operators(&self) -> &[Decl]
        ensures all { result.now ≡ self.now.operators }
        ensures table { IsTable self.now }
    {
        self.operators.as_slice()
    }

    /// The number of rows: the precedences that have an operator. It takes no memory.
    pub fn rows(&self) -> usize
        ensures { result ≡ length (rows self.now.operators) }
    {
        PRECEDENCES
            .iter()
            .filter(|precedence| self.holds(**precedence))
            .count()
    }

    /// Adds an operator at the end. The caller owes that it is admitted.
    ///
    /// The only error is running out of memory, and then the table is unchanged.
    pub fn extend(&mut self, decl: Decl) -> Result<(), AllocError>
        requires { Admits self.old decl }
        ensures ok { OnOk result (self.new ≡ with_operator self.old decl) }
        ensures err { OnErr result (self.new ≡ self.old) }
    {
        self.operators.push(decl)?;
        Ok(())
    }

    /// Drops the operators after the first `count`. If there are no more than that, nothing changes. It takes no memory, so a parser that failed can take
    /// back what it declared.
    #[tactic(auto, using(crate::proofs::Cut::still_table))]
    pub fn cut(&mut self, count: usize)
        ensures { self.new ≡ first_operators count self.old }
    {
        self.operators.truncate(count);
    }

    /// A copy of the table with the operator added at its end, if the operator is admitted.
    ///
    /// If it isn't, the first of A1 to A5 that applies, as in [`Table::admit`], and no memory is asked for.
    pub fn extended_copy(&self, alloc: Global, decl: &Decl) -> Result<Table, ExtendFault>
        ensures ok { IfOk result (λ table. table ≡ with_operator self.now decl.now) }
        ensures admitted { OnOk result (Admits self.now decl.now) }
        ensures refused { (fault : AdmitFault) → (IsErrOf result (ExtendFault.NotAdmitted fault) ↔ (admit_fault self.now decl.now ≡ Some fault)) }
    {
        self.admit(decl).map_err(ExtendFault::NotAdmitted)?;
        let mut copy = self.copy(alloc)?;
        copy.extend(decl.copy(alloc)?)?;
        Ok(copy)
    }

    /// A copy of the table in memory of its own.
    pub fn copy(&self, alloc: Global) -> Result<Table, AllocError>
        ensures { IfOk result (λ table. table ≡ self.now) }
    {
        Ok(Table {
            operators: copied(alloc, self.operators())?,
            reserved: self.reserved.share()?,
            most: self.most,
        })
    }

    /// The table with these declarations added, each admitted by those before it, or the first that isn't admitted.
    fn extended(self, alloc: Global, decls: &[Decl]) -> Result<Table, InitialFault>
        ensures ok { IfOk result (λ table. added_from 0 self decls.now ≡ whole table) }
        ensures err { IfErr result (IsRefusal (added_from 0 self decls.now)) }
    {
        let mut table = self;
        for (index, decl) in decls.iter().enumerate() {
            if let Err(fault) = table.admit(decl) {
                return Err(InitialFault::NotAdmitted { index, fault });
            }
            table.extend(decl.copy(alloc)?)?;
        }
        Ok(table)
    }

    /// A grammar's table without operators. Its limit is 0 if there is no operators item.
    fn empty(alloc: Global, grammar: &Grammar) -> Result<Table, AllocError>
        ensures { IfOk result (λ table. table ≡ empty_table grammar.now.operators) }
    {
        match grammar.operators_item() {
            Some(item) => Ok(Table {
                operators: Vec::new(alloc),
                reserved: item.reserved.share()?,
                most: item.max,
            }),
            None => Ok(Table {
                operators: Vec::new(alloc),
                reserved: Texts::new(alloc, Vec::new(alloc))?,
                most: 0,
            }),
        }
    }

    /// Whether an operator has the precedence.
    fn holds(&self, precedence: u8) -> bool
        ensures { result ≡ holds self.now.operators precedence }
    {
        self.operators
            .iter()
            .any(|operator| operator.precedence() == precedence)
    }

    /// Whether the symbol is reserved.
    fn reserves(&self, symbol: &[char]) -> bool
        ensures { result ≡ list_any (λ s. bytes_eq s symbol.now) self.now.reserved }
    {
        self.reserved.contains(symbol)
    }

    /// Whether a prefix operator has the symbol.
    fn has_prefix(&self, symbol: &[char]) -> bool
        ensures { result ≡ has_prefix self.now.operators symbol.now }
    {
        self.operators.iter().any(|operator| is_prefix(operator.role())
            && operator.symbol() == symbol)
    }

    /// Whether an infix or postfix operator has the symbol.
    fn has_other(&self, symbol: &[char]) -> bool
        ensures { result ≡ has_other self.now.operators symbol.now }
    {
        self.operators.iter().any(|operator| !is_prefix(operator.role())
            && operator.symbol() == symbol)
    }
}

/// Whether the role is prefix.
fn is_prefix(role: Role) -> bool
    ensures { result ≡ is_prefix role }
{
    match role {
        Role::Prefix => true,
        Role::InfixLeft | Role::InfixRight | Role::InfixNone | Role::Postfix => false,
    }
}

/// Copies of the declarations.
fn copied(alloc: Global, decls: &[Decl]) -> Result<Vec<Decl>, AllocError>
    ensures { IfOk result (λ copies. copies.items ≡ decls.now) }
{
    let mut copies = Vec::new(alloc);
    for decl in decls {
        copies.push(decl.copy(alloc)?)?;
    }
    Ok(copies)
}
