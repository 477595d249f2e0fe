//! Stored predicates of characters and stored builders of trees, each with the value that it agrees with.
//!
//! A [`Predicate`] has a function and the class of the characters for which the function holds. A [`Builder`] has a
//! function and the shape of the trees that it makes. That the two agree is a fact of the type, owed by whoever makes
//! one. A [`Registry`] lends them by name. Layers above call what it lends and know the answer from the class or the
//! shape alone.
#![tactic(auto)]

mod builder;
mod named;
mod predicate;
mod registry;
#[cfg(test)]
mod tests;

pub use builder::{Builder, Make};
pub use predicate::{Predicate, Test};
pub use registry::{Registry, RegistryFault};
