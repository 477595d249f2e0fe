//! What is wrong with a corpus file, and where.

use pg_text::Pos;
use std::alloc::{AllocError, AllocFailed};
use thiserror::Error;

/// What is wrong with a corpus file (ours).
#[derive(Clone, Copy, Debug, PartialEq, Eq, Error)]
pub enum FaultKind {
    /// T1: its bytes aren't UTF-8. The position is that of the first that isn't.
    #[error("T1 not UTF-8")]
    NotUtf8,
    /// T2: it has more than `LIMIT` bytes. The position is that of the first too many.
    #[error("T2 corpus too long")]
    TooLong,
    /// T3: a line before the first case that is neither blank nor a comment.
    #[error("T3 text before the first case")]
    BeforeFirst,
    /// T4: a line that is neither blank nor a comment, behind what is wanted and a blank line or a comment.
    #[error("T4 text behind what is wanted")]
    Behind,
    /// T5: a mark with no name behind it.
    #[error("T5 case without a name")]
    NoName,
    /// T6: a bracket behind a name that isn't closed, or that names no rule.
    #[error("T6 bad brackets")]
    BadBrackets,
    /// T7: a case with the name of an earlier one.
    #[error("T7 name twice")]
    NameTwice,
    /// T8: a case whose text has no end: no line of as many `-` as it has `=`.
    #[error("T8 text without an end")]
    NoEnd,
    /// T9: a case that wants nothing.
    #[error("T9 nothing wanted")]
    NothingWanted,
}

/// A fault of a corpus file, and its position.
#[derive(Clone, Copy, Debug, PartialEq, Eq, Error)]
#[error("{line}:{column}: {kind}", line = .position.line, column = .position.column)]
pub struct CorpusFault {
    /// What is wrong.
    pub kind: FaultKind,
    /// Where: the line at fault, and in it the column.
    pub position: Pos,
}

/// Why a file gave no corpus.
#[derive(Debug, Drop, Error)]
pub enum CorpusError {
    /// Something is wrong with it.
    #[error("{0}")]
    Fault(CorpusFault),
    /// Memory ran out.
    #[error("out of memory")]
    Memory,
}

impl From<AllocError> for CorpusError {
    fn from(_e: AllocError) -> CorpusError {
        CorpusError::Memory
    }
}

impl<T: Drop> From<AllocFailed<T>> for CorpusError {
    fn from(_e: AllocFailed<T>) -> CorpusError {
        CorpusError::Memory
    }
}
