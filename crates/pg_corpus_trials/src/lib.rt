//! The cases of a corpus, tried by a grammar.
//!
//! `tried` parses a case's text by a checked grammar (`trial`), and `tried_by_probe` runs the start rule of any grammar on it (`probing`). Both answer whether
//! what the text comes to is what is wanted, or what came instead, as `pg_corpus_judging` defines it. What a run says of a text is in `came`.
#![tactic(auto)]

mod came;
mod probing;
mod trial;

pub use probing::tried_by_probe;
pub use trial::tried;
