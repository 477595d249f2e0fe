//! A diagnostic.

use pg_file_items::Span;

/// How much a diagnostic weighs.
#[derive(Clone, Copy, Debug, PartialEq, Eq)]
pub enum Severity {
    /// The file spells no grammar, or its grammar isn't accepted.
    Error,
    /// The grammar is accepted, and something is noted of it.
    Hint,
}

/// A place that belongs to a diagnostic, and what is there.
#[derive(Drop)]
pub struct Other {
    pub span: Span,
    pub words: String,
}

/// A fault, a finding or a note.
#[derive(Drop)]
pub struct Diagnostic {
    /// The characters that it is about.
    pub span: Span,
    pub severity: Severity,
    /// The code of a fault or a finding; a note has none.
    pub code: Option<&'static str>,
    /// What `pgw check --json` says of it.
    pub message: String,
    /// Other places that belong to it.
    pub others: Vec<Other>,
}
