//! The tokens of a grammar file, and how its characters are cut into them.
//!
//! `lex` cuts a file into tokens, each with its place, and returns exactly the tokens that the characters spell
//! (`specs/Lexical.antt`). This crate doesn't know what a token is for: a reserved word is a name like any other.
#![tactic(auto)]

mod characters;
mod lexer;
mod token;

pub use characters::{copied, is_word};
pub use lexer::{lex, lex_up_to};
pub use token::{Lexeme, Mark, Token, has_bad_at};
