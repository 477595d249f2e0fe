//! The lines of a text.

/// A line of a text.
#[derive(Clone, Copy)]
pub(crate) struct Line {
    /// Its number, from 1.
    pub(crate) number: usize,
    /// How many characters stand before it.
    pub(crate) first: usize,
    /// How many characters stand before its end.
    pub(crate) after: usize,
}

/// The line in which a place stands.
pub(crate) fn line_at(text: &[char], place: usize) -> Line {
    let mut number: usize = 1;
    let mut first: usize = 0;
    for at in 0..place.min(text.len()) {
        if is_at(text, at, '\n') {
            number = number.saturating_add(1);
            first = at.saturating_add(1);
        }
    }
    Line {
        number,
        first,
        after: end_after(text, first),
    }
}

/// Where the line that begins at a place ends: before its line feed, and before a carriage return there.
fn end_after(text: &[char], first: usize) -> usize {
    for at in first..text.len() {
        if is_at(text, at, '\n')
            || (is_at(text, at, '\r') && is_at(text, at.saturating_add(1), '\n'))
        {
            return at;
        }
    }
    text.len()
}

/// Whether this character stands at a place.
fn is_at(text: &[char], place: usize, c: char) -> bool {
    text.get(place).copied() == Some(c)
}
