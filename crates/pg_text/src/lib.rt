//! Texts of characters, and the positions of places in them.
//!
//! A text has at most `LIMIT` characters; it is decoded from UTF-8 once and then only read. `Characters` is an owned
//! list of characters of any length, for the names and literals of a grammar file. `Texts` is a list of these with fast
//! lookup. Places count characters from 0; lines and columns count from 1.
#![tactic(auto)]

mod characters;
mod encoded;
mod position;
#[cfg(test)]
mod tests;
mod text;
mod texts;

pub use characters::Characters;
pub use encoded::{characters_of, utf8};
pub use position::{Pos, advanced, position_in};
pub use text::{LIMIT, Text, TextFault};
pub use texts::Texts;
