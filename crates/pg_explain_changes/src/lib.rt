//! Changes of a grammar file that may cure a finding: what is replaced, and by what.
//!
//! A fixed list says which changes may help, with a file for each kind. `listing` puts those for a finding in order, the best first. The forms of the file
//! show what a change replaces, and by what (`pg_explain_drafts`). Whether a change helps isn't known here; reading and checking the changed file shows it.
//! So the code is only proved to be safe and to end.
#![tactic(auto)]

mod blanks;
mod chains;
mod listing;
mod once;
mod order;
mod reserving;
mod rounds;
mod runs;
mod strings;
mod swaps;
mod trying;

pub use listing::{Trouble, drafts};
