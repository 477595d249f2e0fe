//! The file that a grammar was read from.

use pg_file_items::Span;

/// A grammar's file: its name, its characters, and for each node the characters that were written for it.
#[derive(Clone, Copy)]
pub struct GrammarFile<'f> {
    pub name: &'f str,
    pub text: &'f [char],
    pub spans: &'f [Span],
}
