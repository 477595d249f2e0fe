//! Lines and columns of places in a file of bytes.

use crate::fault::{CorpusError, CorpusFault, FaultKind};
use pg_text::{Pos, advanced};

/// A fault that stands behind so many bytes of a file, or behind those of them that are UTF-8.
pub(crate) fn fault_behind(kind: FaultKind, bytes: &[u8], count: usize) -> CorpusError {
    let front = first(bytes, count);
    let position = match std::str::from_utf8(front) {
        Ok(text) => position_behind(text),
        Err(error) => position_of_prefix(first(front, error.valid_up_to())),
    };
    CorpusError::Fault(CorpusFault { kind, position })
}

/// The first so many bytes, or all if there are fewer.
fn first(bytes: &[u8], count: usize) -> &[u8] {
    &bytes[..count.min(bytes.len())]
}

/// The position behind bytes that are UTF-8.
fn position_of_prefix(bytes: &[u8]) -> Pos {
    match std::str::from_utf8(bytes) {
        Ok(text) => position_behind(text),
        Err(_) => Pos { line: 1, column: 1 },
    }
}

/// The position behind a text, by the rule of `pg_text`.
fn position_behind(text: &str) -> Pos {
    let mut position = Pos { line: 1, column: 1 };
    for c in text.chars() {
        position = advanced(position, c);
    }
    position
}

/// How many line feeds there are.
pub(crate) fn line_feeds(bytes: &[u8]) -> u32 {
    let mut count: u32 = 0;
    for byte in bytes {
        if *byte == b'\n' {
            count = count.saturating_add(1);
        }
    }
    count
}
