//! Findings and faults of grammar files as lines of JSON, for editors and scripts.
//!
//! The line of a finding is made from the finding itself (`finding`) and the place of its form. It is written as soon as the finding comes (`writing`), so no
//! finding is kept. Names and starts are escaped for JSON before the first line (`listing`). The lines of a fault (`fault_json`) and of a note on an accepted
//! grammar (`note`) have fewer fields. What explains a finding to people comes at the end of its line (`told`), and the places of characters are worked out
//! once for a file (`spots`). The keys are those of docs/JSON.md.
#![tactic(auto)]

mod fault_json;
mod fields;
mod finding;
mod listing;
mod note;
mod spots;
mod told;
mod writing;

pub use fault_json::fault_line;
pub use listing::ListedFile;
pub use note::note_line;
pub use spots::Spots;
pub use told::{ToldFinding, push_help, push_witness, push_words};
pub use writing::write_listing;
