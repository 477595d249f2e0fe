//! Declarations of operators: what a table holds, and what a text or a grammar file adds to it.
//!
//! Contracts see a declaration as an operator: a role, a precedence and a symbol. The precedence is from 0 to 9 and the symbol isn't empty; both are
//! invariants of the type. Rows of the operator table rely on the one, and reading operators relies on the other.

ghost use Rattle.std.specs.Prelude.{◌≡◌, ◌≤◌, ◌<◌, IfOk, length};
ghost use Rattle.pg_grammar_form.specs.Operators.{IsOperator};

use pg_text::Characters;
use std::alloc::{AllocError, Global};
use std::marker::Model;

/// On which side of its operands an operator stands, and its associativity (Text.Parsec.Expr).
#[derive(Clone, Copy, Debug, PartialEq, Eq)]
pub enum Role {
    /// Between two operands, associating to the left (`infixl`).
    InfixLeft,
    /// Between two operands, associating to the right (`infixr`).
    InfixRight,
    /// Between two operands, associating to neither side (`infix`).
    InfixNone,
    /// Before its operand.
    Prefix,
    /// After its operand.
    Postfix,
}

/// A declaration of an operator.
#[derive(Drop)]
pub struct Decl {
    role: Role,
    precedence: u8,
    symbol: Characters,
}

impl Model for Decl {
    ghost use Rattle.pg_grammar_form.specs.Operators.{Operator, IsOperator};

    ghost Value = { Operator };

    ghost view = { λ d. record { role = d.role; precedence = d.precedence; symbol = d.symbol } };

    ghost invariant = { λ d. IsOperator (record { role = d.role; precedence = d.precedence; symbol = d.symbol }) };
}

impl Decl {
    /// The declaration of an operator. The caller owes that the precedence is at most 9 and that the symbol isn't empty. It takes no memory.
    pub fn new(role: Role, precedence: u8, symbol: Characters) -> Decl
        requires precedence { precedence ≤ 9 }
        requires symbol { 0 < length symbol }
        ensures { result ≡ record { role = role; precedence = precedence; symbol = symbol } }
    {
        Decl {
            role,
            precedence,
            symbol,
        }
    }

    /// The side of its operands on which the operator stands, and its associativity.
    pub fn role(&self) -> Role
        ensures { result ≡ self.now.role }
    {
        self.role
    }

    /// The precedence, from 0 to 9; 9 binds tightest.
    pub fn precedence(&self) -> u8
        ensures same { result ≡ self.now.precedence }
        ensures proper { IsOperator self.now }
    {
        self.precedence
    }

    /// The characters of its symbol, at least one.
    pub fn symbol(&self) -> &[char]
        ensures same { result.now ≡ self.now.symbol }
        ensures proper { IsOperator self.now }
    {
        self.symbol.as_slice()
    }

    /// An equal declaration in memory of its own.
    pub fn copy(&self, alloc: Global) -> Result<Decl, AllocError>
        ensures { IfOk result (λ decl. decl ≡ self.now) }
    {
        let Decl {
            role,
            precedence,
            symbol,
        } = self;
        let symbol = Characters::new(Vec::from_slice(alloc, symbol.as_slice())?);
        Ok(Decl::new(*role, *precedence, symbol))
    }
}
