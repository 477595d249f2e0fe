//! The check of a grammar file with a prefix on each line: the place in the file, or its name.
#![tactic(auto)]

mod placed;

pub use placed::{InFront, placed_bytes, placed_loaded};
