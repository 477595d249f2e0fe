//! The lexer of grammar files: one module for each kind of token, and one that cuts a file into tokens.

mod blank;
mod escape;
mod lexemes;
mod literal;
mod mark;
mod word;

pub use lexemes::{lex, lex_up_to};
