//! Drafts of changed grammar files: the forms of a file by their spans, and what replaces some of them.
//!
//! The forms of a file are found by their spans (`forms`). What they can begin with and what can follow them is looked up there (`met`, `follows`, `levels`).
//! A draft replaces characters by characters of the file and new words (`draft`). The crates above decide which changes may help. Nothing is claimed here but
//! that the code is safe and ends.
#![tactic(auto)]

mod change;
mod changed;
mod draft;
mod fillings;
mod follows;
mod forms;
mod kinds;
mod levels;
mod met;
mod rules;
mod spans;
mod taking_out;
mod writing;

pub use change::Change;
pub use changed::Changed;
pub use draft::{Draft, push_draft};
pub use fillings::{Filled, Filling, consuming, fill, write_filled, write_filling};
pub use follows::following;
pub use forms::Forms;
pub use kinds::Kind;
pub use levels::{LEVELS, Level};
pub use met::{Met, leading};
pub use rules::WrittenRule;
pub use spans::{item_spans, slice_of};
pub use taking_out::take_out;
