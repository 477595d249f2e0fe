//! Outlines of trees as cases of a corpus want them: without places.
//!
//! A forest is read as pieces in the order in which they are printed (`reading`), and these are printed one after another (`page`). Nothing recurses, and no
//! text is copied but into the page.
#![tactic(auto)]

mod label;
mod page;
mod piece;
mod reading;
#[cfg(test)]
mod tests;

pub use page::outline;
