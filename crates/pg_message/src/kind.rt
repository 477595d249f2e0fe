//! The four kinds of messages.

/// The kind of a message (Text.Parsec.Error).
#[derive(Clone, Copy, Debug, PartialEq, Eq)]
pub enum MessageKind {
    /// What stopped a leaf. The empty text stands for the end of input.
    SystemUnexpected,
    /// What a parser itself reports as unexpected.
    Unexpected,
    /// What was expected.
    Expected,
    /// A text that is printed as it is.
    Plain,
}
