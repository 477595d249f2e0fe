//! Positions, and what they count.

/// A line of a document and the units before a place in it, both counted from 0.
#[derive(Clone, Copy, Debug, PartialEq, Eq)]
pub struct Position {
    pub line: usize,
    pub unit: usize,
}

/// What the units of positions are: the bytes of UTF-8, or the words of 16 bits of UTF-16, of which characters above U+FFFF take two.
#[derive(Clone, Copy, Debug, PartialEq, Eq)]
pub enum Encoding {
    Utf8,
    Utf16,
}
