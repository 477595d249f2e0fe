//! The predicates and builders that a grammar file may name, and the registry of them.
//!
//! Each predicate recognises a [`Kind`] of characters, by Unicode's general categories if ASCII isn't enough, and has the class of exactly these characters.
//! Each builder makes trees of one shape. `specs/ProgramOffer.antt` says that the registry offers these and nothing else. This crate needs no grammar: its
//! caller says what to do with the registry.
#![tactic(auto)]

mod categories;
mod kind;
#[cfg(test)]
mod kind_tests;
mod registry;
mod shapes;

pub use kind::Kind;
pub use registry::{UsesRegistry, with_registry};
