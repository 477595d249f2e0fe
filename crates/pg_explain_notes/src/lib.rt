//! What is noted of a grammar, accepted or not: rules that derive no text or that the start rule never reaches, symbols for which a builder has no use, and
//! classes and word items that nothing uses.
//!
//! A note is a value with its words and its place (`notes`). What prints it is above.
#![tactic(auto)]

mod derivable;
mod notes;
mod symbols;
mod used;

pub use notes::{Note, notes_on};
