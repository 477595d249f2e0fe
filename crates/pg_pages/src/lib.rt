//! The pages of the codes that the program prints: C4 of a finding, F4 of a grammar file, P5 of a probe.
//!
//! The pages are the parts of docs/ that have codes as headings, as plain text (`pages`). The page of a number that isn't used says so. This crate looks
//! pages up.
#![tactic(auto)]

mod look_up;
mod pages;

pub use look_up::page;
