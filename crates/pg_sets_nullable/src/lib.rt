//! Which nodes of a grammar can succeed without a character, which rules each rule heads, and which rules lead back to themselves.
//!
//! Nullable nodes and ranks are found in rounds, until a round finds none; heads are found by walks along a graph. Each result is
//! the least set that its definition allows. Start here to compute sets of starts.
#![tactic(auto)]

mod heads;
mod marks;
mod nullable;
mod parts;
mod ranks;
mod rules;

pub use heads::heads_of_rules;
pub use nullable::nullable_nodes;
pub use ranks::{rank_at, ranks_of_rules};
pub use rules::{Rules, rules_at};
