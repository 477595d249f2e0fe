//! The places of forms in a grammar file.
//!
//! Findings about a form are shown there. `pg_file_parser` proves which characters they are.

/// The characters of a form in the file, counted from 0.
#[derive(Clone, Copy, PartialEq, Eq)]
pub struct Span {
    /// Where its word begins, or the name if the form is a rule: how many characters stand before it.
    pub first: usize,
    /// The end of its closing parenthesis or of the name: how many characters stand before that end.
    pub after: usize,
}
