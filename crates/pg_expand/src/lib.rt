//! Expressions: a table's operators as the rows of `buildExpressionParser` (Text.Parsec.Expr), and what these rows derive.
//!
//! [`expand`] gives the rows, the tightest first. `specs/RowGrammar.antt` is the parser of the rows read as a grammar. It derives exactly the trees that fit
//! the table (`pg_table`), which is a clause of `expand` and a law. A [`Lookup`] has the same operators by their symbols, each with the number of its row.
#![tactic(auto)]

mod expansion;
mod laws;
mod lookup;
mod rows;
#[cfg(test)]
mod tests;

pub use expansion::expand;
pub use laws::{
    one_tree_per_operators, one_tree_per_reading, rows_and_lookups_agree, rows_derive_fitting_trees,
};
pub use lookup::{Lookup, RowOperator};
pub use rows::{Operators, Row, RowList, Rows};
