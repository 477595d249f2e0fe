//! The four kinds of a parser's answer.

/// How a parser answered: whether it consumed input, and whether it succeeded (the Parsec report).
#[derive(Clone, Copy, Debug, PartialEq, Eq)]
pub enum AnswerKind {
    /// It consumed input and succeeded.
    ConsumedOk,
    /// It consumed input and failed.
    ConsumedError,
    /// It succeeded and consumed nothing.
    EmptyOk,
    /// It failed and consumed nothing.
    EmptyError,
}
