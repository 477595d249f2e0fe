//! Marks on characters of a file.

/// A stretch of a file that is marked, in characters from 0. An empty stretch marks its place.
#[derive(Clone, Copy, Debug, PartialEq, Eq)]
pub struct Mark {
    /// How many characters stand before the first one.
    pub first: usize,
    /// How many characters stand before the end of the stretch.
    pub after: usize,
    /// The number shown as the mark; none for carets.
    pub number: Option<usize>,
}
