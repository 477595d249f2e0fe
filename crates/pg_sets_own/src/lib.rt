//! The starts that a node of a grammar gives by itself, and not by its parts.
//!
//! A class expression becomes its ranges (`pg_grammar_classes`). Words are distinguished by their classes and reserved texts
//! (`words`), once for each item (`word_starts`). A try around a string gives a key (`keys`). Starts have one order (`listed`), with
//! each start once, and one printed form (`printed`).
#![tactic(auto)]

mod classes;
mod keys;
mod listed;
mod operators;
mod own;
mod printed;
mod word_starts;
mod words;

pub use keys::key_tries;
pub use listed::ListedStart;
pub use operators::{OperatorStarts, operator_starts};
pub use own::own_starts;
pub use printed::printed_start;
pub use word_starts::{WordStarts, starts_of_words};
