//! Forests over a text: leaves are places of the text, and trees are kept as the steps that make them.
#![tactic(auto)]

mod block;
mod characters;
mod entry;
mod forest;
mod json_text;
mod labels;
mod note;
mod noting;
mod openings;
mod pending;
mod quoting;
mod source;
mod steps;
mod store;
mod writing;
mod writing_noted;

pub use forest::PlacedForest;
pub use json_text::PlacedText;
