//! Keeps the bytes of a text while it is read, so that the first byte that belongs to no character can be reported.
//!
//! A text is read when it is parsed, after its grammar has been accepted. So its bytes are kept as they come.

use std::alloc::Global;
use std::io;
use std::io::Read;

/// An open text, and the bytes read from it.
#[derive(Drop)]
pub struct Kept<F> {
    /// The source of the text.
    file: F,
    /// The bytes read, as far as there was memory for them.
    bytes: Vec<u8>,
    /// Whether memory ran out for some of them.
    is_cut: bool,
    /// Whether the end of the text was reached.
    has_ended: bool,
}

impl<F> Kept<F> {
    /// An open text of which nothing has been read.
    pub fn new(alloc: Global, file: F) -> Kept<F> {
        Kept {
            file,
            bytes: Vec::new(alloc),
            is_cut: false,
            has_ended: false,
        }
    }

    /// All bytes of the text, if it was read to its end and all were kept; else empty.
    pub fn text(&self) -> &[u8] {
        if self.has_ended && !self.is_cut {
            self.bytes.as_slice()
        } else {
            &[]
        }
    }

    /// Keeps the bytes of one read. A read of no bytes is the end of the text.
    fn keep(&mut self, given: &[u8]) {
        if given.is_empty() {
            self.has_ended = true;
        }
        if self.bytes.extend_from_slice(given).is_err() {
            self.is_cut = true;
        }
    }
}

impl<F: Read> Read for Kept<F> {
    fn read(&mut self, buf: &mut [u8]) -> io::Result<usize> {
        let count = self.file.read(buf)?;
        self.keep(&buf[..count]);
        Ok(count)
    }
}
