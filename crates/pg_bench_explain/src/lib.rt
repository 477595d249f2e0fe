//! The explanation of grammar files for people: from the bytes of a file to what is wrong with its grammar.
//!
//! `pg_explain` makes the sections, each with the lines of the file that it is about. Here they are put on a page (`explained_page`), with a text that shows
//! the finding (`witnesses`) and a change that cures it (`cures`), and written. `fields` makes the same into fields of lines of JSON, with changes as edits
//! (`edits`) and answers on a line (`answers`). `changes` has the changes for a range of the file, and `runs` writes the outline of a parse. The contract of an
//! explanation speaks of the file's grammar, and of whether it has findings. About the page it only speaks if there are none.
#![tactic(auto)]

mod answers;
mod asked;
mod changes;
mod cures;
mod edits;
mod explain;
mod explained_page;
mod fields;
mod notes;
mod refused_file;
mod runs;
mod witnesses;

pub use changes::{TriedChange, tried_changes};
pub use explain::{Explained, explain_bytes, explain_loaded};
pub use fields::told_findings;
pub use notes::json_notes;
pub use runs::outline_success;
