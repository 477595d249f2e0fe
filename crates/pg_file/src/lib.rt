//! From the bytes of a grammar file to its grammar, and the faults on the way; and back to bytes.
//!
//! The crates below cut the file into tokens, read items from them and make the grammar, each with its faults. This crate runs them one after another
//! (`syntax`, `file`), names and places the faults (`error`, `fault`), and proves that reading and printing agree (`laws`, `printing`). `read` returns
//! exactly the grammar that a file spells, if there is one within the limits, and `read_file` returns all that is made on the way.
#![tactic(auto)]

mod error;
mod file;
mod file_fault;
mod laws;
mod printing;
mod syntax;

pub use file::{ReadFile, read, read_file, read_placed};
pub use file_fault::{FaultKind, FileError, FileFault};
pub use laws::{
    files_spell_one_grammar, prints_are_read_again, prints_spell_the_grammar,
    spans_are_those_of_forms,
};
pub use printing::print;
pub use syntax::Syntax;
