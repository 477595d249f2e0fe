//! What findings name, and their lines, each with a front.
//!
//! A finding is a value (`pg_predict`). `named.rt` gives the alternatives and the starts that it names. `writing.rt` writes the lines of all
//! findings, each with its place in the file or with the file's name in front (`fronts.rt`). Names and starts are made
//! before the first line (`texts.rt`), so a line allocates no memory.
#![tactic(auto)]

mod fronts;
mod named;
mod texts;
mod writing;

pub use fronts::{Front, Fronts, front_pieces};
pub use named::{Named, alternatives_of, is_of_no_text, starts_of};
pub use texts::texts_of;
pub use writing::write_fronted;
