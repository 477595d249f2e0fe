//! Whether a changed grammar keeps the language of the grammar before.
//!
//! Short texts of a grammar are gathered, each with the trail and the forest of a derivation (`samples`, `asks`, `meeting`). What becomes of each in another
//! grammar is found out (`fate`): by a run, if that reads the text, and else by a search for where derivations of its nodes can end (`ends`). All texts of a
//! few characters are compared as well (`apart`). A text reported as kept is derived by both grammars, with the same trees or with others. No loss is proved:
//! it depends on the search, which may take a text for derivable that isn't, but never the other way round.
#![tactic(auto)]

mod apart;
mod asks;
mod drafted;
mod ends;
mod fate;
mod kept;
mod leaves;
mod letters;
mod meeting;
mod reading;
mod samples;

pub use ends::{Derived, derivable};
pub use fate::{Fate, fate_of};
pub use kept::{Kept, Parsed, kept_of};
pub use samples::{Sample, samples_of};
