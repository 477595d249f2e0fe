//! A language's examples, kept as files of cases.
//!
//! `read_corpus` reads the bytes of a file to a `Corpus`, whose parts are slices of the file. Which lines belong to which part is told in `lines`; a case (`case`) begins
//! with a line of its own (`heading`). `updated` prints a corpus with other texts in the place of what is wanted, and `told_apart` says what that is.
#![tactic(auto)]

mod case;
mod corpus;
mod fault;
mod heading;
mod lines;
mod names;
mod places;
#[cfg(test)]
mod tests;
mod wanted;

pub use case::Case;
pub use corpus::{Corpus, LIMIT, read_corpus, updated, updating_with_the_same};
pub use fault::{CorpusError, CorpusFault, FaultKind};
pub use wanted::{Wanted, can_be_wanted, told_apart};
