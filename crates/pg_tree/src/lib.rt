//! The trees that parsers build, their text in JSON, and the readers and writers of a run.
//!
//! A `Tree` is a leaf with a text or a node with a label and kids. A `Forest` is a list of trees, and a `Shape` says
//! how a list of trees is made into one. A `Meter` wraps a reader or a writer and remembers whether a call failed, how
//! many calls there were and how many bytes they moved. Each reader and writer of a run is wrapped in one, so that
//! contracts can promise how the outside was called.
#![tactic(auto)]

mod entries;
mod entry;
mod forest;
mod json_text;
mod label;
mod meter;
mod openings;
mod quoted;
mod read;
mod shape;
mod store;
#[cfg(test)]
mod tests;
mod tree;
mod write;

pub use entries::{Entries, Seen};
pub use forest::Forest;
pub use label::Label;
pub use meter::Meter;
pub use quoted::{push_escaped, push_quoted};
pub use read::{ReadFault, read_bytes};
pub use shape::{Shape, built};
pub use tree::Tree;
pub use write::{WriteFault, write_bytes, write_json};
