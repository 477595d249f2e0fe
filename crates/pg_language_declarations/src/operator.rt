//! The operator that a declaration adds to the table, and the declaration's tree.

ghost use Rattle.std.specs.Prelude.{◌≡◌, ◌+◌, ◌≤◌, IfOk};
ghost use Rattle.pg_grammar_form.specs.Operators.{IsOperator};
ghost use Rattle.pg_language.specs.Derives.{declaration_tree};
ghost use Rattle.pg_language_declarations.specs.Views.{operator_of};

use crate::declaration::Declared;
use crate::keyword::keyword;
use pg_grammar_form::Decl;
use pg_text::Characters;
use pg_tree::{Forest, Tree};
use std::alloc::{AllocError, Global};

impl Declared<'_> {
    /// The operator, in memory of its own.
    pub fn operator(&self, alloc: Global) -> Result<Decl, AllocError>
        requires { IsOperator (operator_of self.now) }
        ensures { IfOk result (λ operator. operator ≡ operator_of self.now) }
    {
        let symbol = Characters::new(Vec::from_slice(alloc, self.symbol)?);
        Ok(Decl::new(self.role, self.precedence, symbol))
    }

    /// The node `declare` with three leaves: the keyword, the digit and the symbol.
    pub fn tree(&self, alloc: Global) -> Result<Tree, AllocError>
        requires { IsOperator (operator_of self.now) }
        ensures { IfOk result (λ tree. tree ≡ declaration_tree (operator_of self.now)) }
    {
        let mut leaves = Forest::new(alloc);
        leaves.push_leaf(keyword(self.role))?;
        leaves.push_leaf(&[digit(self.precedence)])?;
        leaves.push_leaf(self.symbol)?;
        Tree::node(alloc, "declare", leaves)
    }
}

/// The digit of a precedence.
fn digit(precedence: u8) -> char
    requires { precedence ≤ 9 }
    ensures { result ≡ 48 + precedence }
{
    char::from(b'0' + precedence)
}
