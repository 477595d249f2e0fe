//! Graphs of numbered vertices, as lists of numbers: for each vertex the numbers of its successors.
//!
//! Vertices reached from some roots are found by walks (`walk`, `gather`). Sets that name many numbers are handed on along the edges instead, as sets of
//! bits (`handing`). Marks are lists with one mark for each numbered thing.
#![tactic(auto)]

mod gather;
mod handing;
mod marks;
mod numbers;
mod walk;

pub use gather::gathered;
pub use handing::spread;
pub use marks::is_marked;
pub use numbers::{Numbers, empty_lists, join, numbers_at};
