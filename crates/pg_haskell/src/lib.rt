//! A grammar file as a Haskell module over Text.Parsec.
//!
//! The module is the grammar: a parser for each rule, in the words of the combinators, with short forms as the file has them (`value`, `class`),
//! under the rule's name or one as near as Haskell allows (`names`). What the library hasn't, as one leaf with a text, comes behind the rules
//! (`helpers`), as far as the grammar uses it. Nothing is claimed here, so the code owes that it is safe and ends; that a module answers as
//! the program does is tried by the real library.
#![tactic(auto)]

mod builders;
mod class;
mod comments;
mod helpers;
mod imports;
mod literal;
mod module;
mod names;
mod operators;
mod page;
mod taken;
mod tightness;
mod value;

pub use module::{ModuleHead, haskell_module};
pub use names::is_module_name;
