//! Starts: what a parser can meet first where it begins, or right after it ends.
//!
//! A start is one character of a class, a key (a text with characters that may not follow it), a word, or the end of the text. `matches_at` tells whether a
//! start matches at a place of a text. `apart` tells whether two starts differ by their definitions alone: then no place of any text has both
//! (`starts_apart_never_meet`), and a parser that looks ahead never has to choose between them.
#![tactic(auto)]

mod kind;
mod laws;
mod matching;
mod pairs;
mod prefix;
mod start;
#[cfg(test)]
mod tests;

pub use kind::StartKind;
pub use laws::{apart_is_symmetric, starts_apart_never_meet};
pub use matching::matches_at;
pub use pairs::apart;
pub use start::Start;
