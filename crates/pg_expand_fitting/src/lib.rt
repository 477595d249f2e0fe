//! Whether operators, as they are read in a text, are those of a tree that fits a table, and the steps through that tree from left to right.
#![tactic(auto)]

mod fitting;
mod judge;
mod known;
mod step;

pub use fitting::fitting_steps;
pub use step::Step;
