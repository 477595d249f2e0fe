//! The language of grammars: what a grammar derives, and what Parsec answers.
//!
//! Two relations define the meaning of grammars, and everything proved about checks, laws, the machine and the program speaks of them. `specs/Derives.antt`
//! says which stretches of a text a node derives, from one operator table to another, in any order of trying. `specs/Answers.antt` says what the outcome of
//! running a node at a place is, ok or with an error, consumed or empty: each form's rule as cases on finite runs, in the reading of Text.Parsec and in that
//! of the Parsec report of 2001. It has no stack and no order of computation: a machine that runs a grammar has to agree with it, and laws about parsers are
//! laws about it. This crate knows nothing of sets, checks or machines.
#![tactic(auto)]

mod laws;
mod reading;

pub use laws::{derivations_lead_on, tables_come_from_grammar};
pub use reading::Reading;
