//! Harmless backtracking: on a grammar on which a parser never has to backtrack, a `try` may stand around any parser, and what it
//! gives back is never read again.
#![tactic(auto)]

mod backtracking;

pub use backtracking::{
    logs_are_unique, nothing_is_read_twice, nothing_is_read_twice_by_closed_sets,
};
