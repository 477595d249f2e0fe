//! Printing a grammar in its one canonical form.
//!
//! `specs/Canonical.antt` defines the tree that is printed, and `specs/Printed.antt` its characters. Class expressions and bodies are read once, from left to
//! right, with a stack of the open forms (`levels`). That a printed grammar is read back as the same grammar is proved in a layer above.
#![tactic(auto)]

mod body;
mod class;
mod items;
mod layout;
mod levels;

pub use items::print;
