//! Grammars as values: rules in file order, over nodes in one flat list, with typed numbers.
//!
//! A [`Grammar`] is read only; `pg_grammar` makes one, and `pg_grammar_form` has its parts. Every number in a grammar names something: that is an invariant
//! of the type, and all layers above rely on it. `Grammar::contains` tells whether the class expression at a site has a character, and `Grammar::test` tells
//! it of an expression with the functions of a registry that fits (`Grammar::fits`).
#![tactic(auto)]

mod fits;
mod grammar;
mod membership;
mod trail;

pub use grammar::{Grammar, Rule};
pub use trail::{AppliedOperator, AppliedOperators, Fixity, Trail, TrailItem};
