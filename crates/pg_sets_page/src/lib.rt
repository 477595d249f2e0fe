//! The page that shows the sets of a grammar.
//!
//! For each rule it has a line with the rule's heads and rank, and below it a line for each node of the rule's body: whether it
//! is nullable, its first set and its follow set. `specs/SetsPage.antt` defines it byte by byte. The crate depends on the sets alone,
//! so it is proved beside the machine.
#![tactic(auto)]

mod page;

pub use page::{form_word, sets_page};
