//! A changed text whose characters know where they stood in the file.

use pg_file_items::Span;
use std::alloc::{AllocError, Global};

/// A changed text, and for each of its characters its place in the file, if it comes from there.
#[derive(Drop)]
pub struct Changed {
    pub text: Vec<char>,
    pub from: Vec<Option<usize>>,
}

impl Changed {
    /// An empty text.
    pub(crate) fn new(alloc: Global) -> Changed {
        Changed {
            text: Vec::new(alloc),
            from: Vec::new(alloc),
        }
    }

    /// Appends characters of the file.
    pub(crate) fn keep(&mut self, file: &[char], span: Span) -> Result<(), AllocError> {
        for place in span.first..span.after {
            if let Some(c) = file.get(place) {
                self.push(*c, Some(place))?;
            }
        }
        Ok(())
    }

    /// Appends words, which are ASCII.
    pub(crate) fn push_words(&mut self, words: &str) -> Result<(), AllocError> {
        for byte in words.as_bytes() {
            self.push(char::from(*byte), None)?;
        }
        Ok(())
    }

    /// Appends a character, and its place in the file if it comes from there.
    pub(crate) fn push(&mut self, c: char, from: Option<usize>) -> Result<(), AllocError> {
        self.text.push(c)?;
        self.from.push(from)?;
        Ok(())
    }

    /// The characters of the file that a span of the changed text comes from, if its first and last character come from there.
    pub fn back(&self, span: Span) -> Option<Span> {
        let first = self.origin(span.first)?;
        let last = self.origin(span.after.saturating_sub(1))?;
        Some(Span {
            first,
            after: last.saturating_add(1),
        })
    }

    /// Where a character stood in the file, if it comes from there.
    pub fn origin(&self, place: usize) -> Option<usize> {
        match self.from.get(place) {
            Some(origin) => *origin,
            None => None,
        }
    }
}
