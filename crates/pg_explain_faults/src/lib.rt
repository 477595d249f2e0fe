//! Explanations of what is wrong with a grammar file that can't be read, for people.
//!
//! The fault is the one that `pg_file` answers. Its line is shown here, with what the token there means (`page_of_fault`): what could stand there, found by
//! asking the parser itself (`expected`), a name that is a word of grammar files (`taken`), the word that is misspelled (`misspelled`), the nearest name
//! (`nearest`), and what to write instead of a name that Parsec has and grammar files don't (`parsec`). Nothing is claimed but which words there are
//! (`words`). The rest is proved to be safe and to end, and tests check what it says.
#![tactic(auto)]

mod characters;
mod context;
mod expected;
mod limits;
mod misspelled;
mod names;
mod nearest;
mod page_of_fault;
mod parsec;
mod shown;
mod taken;
mod tokens;
mod unexpected;
mod unknown;
mod words;

pub use names::nearest_rule;
pub use page_of_fault::fault_page;
