//! From the bytes of a grammar file to its grammar's findings, as lines of JSON.
#![tactic(auto)]

mod json;

pub use json::{json_bytes, json_loaded};
