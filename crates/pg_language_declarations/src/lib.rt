//! Declarations of operators in texts.
//!
//! A declaration is the keyword of a role, a digit and a symbol, with the run of the gap after each. [`declaration_at`] reads one where it may stand, and
//! gives for an operator the place of its symbol and the place after it. Whether a table admits the operator is decided elsewhere (`pg_table`).
#![tactic(auto)]

mod declaration;
mod keyword;
mod operator;
mod run;

pub use declaration::{Declaration, Declared, declaration_at};
pub use run::{past_gap, run_at, run_of};
