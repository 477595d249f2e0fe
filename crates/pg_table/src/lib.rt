//! Operator tables: the operators in force at a place of a text, and which declarations a table admits.
//!
//! `specs/Tables.antt` says what a table admits, and `specs/Fitting.antt` which operator trees fit one.
#![tactic(auto)]

mod admit_fault;
mod limits;
mod table;
#[cfg(test)]
mod tests;

pub use admit_fault::{AdmitFault, ExtendFault, InitialFault};
pub use limits::{PRECEDENCES, SYMBOL_LIMIT};
pub use table::Table;
