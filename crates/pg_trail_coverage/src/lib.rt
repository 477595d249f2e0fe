//! What the derivations of texts take of a grammar, by their trails.
//!
//! Of each choice its alternatives are counted, of each repetition and chain that it has no round, one, and more, and of the initial table its operators: a
//! *turn* each (`turn`). Only what the start rule can reach and what can derive something is asked for (`reach`). `Coverage` notes the turns that trails take
//! (`coverage`), each trail by one walk along the grammar (`walk`), which needs no text. Nothing is claimed here but that the code is safe and ends.
#![tactic(auto)]

mod coverage;
mod productive;
mod reach;
mod turn;
mod walk;

pub use coverage::Coverage;
pub use turn::{Turn, What};
