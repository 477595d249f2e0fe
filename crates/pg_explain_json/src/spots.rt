//! Where the characters of a file stand, as the lines of JSON give it.

use crate::fields::push_number;
use pg_file_items::Span;
use pg_text::Pos;
use pg_text_excerpt::positions;
use std::alloc::{AllocError, Global};

/// Where a character stands: its line, its column by the rule of tabs, and its number in its line, all counted from 1.
#[derive(Clone, Copy)]
pub(crate) struct Spot {
    pub(crate) line: usize,
    pub(crate) column: usize,
    pub(crate) character: usize,
}

/// Where each character of a file stands, and the end of the file.
#[derive(Drop)]
pub struct Spots {
    positions: Vec<Pos>,
    /// How many characters stand before each line.
    lines: Vec<usize>,
}

impl Spots {
    /// Works them out for a file with these characters. Fails where memory runs out.
    pub fn of(alloc: Global, text: &[char]) -> Result<Spots, AllocError> {
        let positions = positions(alloc, text)?;
        let lines = lines_of(alloc, text)?;
        Ok(Spots { positions, lines })
    }

    /// Where the first and the last character of a span stand.
    pub(crate) fn ends(&self, span: Span) -> (Spot, Spot) {
        let last = span.after.saturating_sub(1).max(span.first);
        (self.spot(span.first), self.spot(last))
    }

    /// Where the character at this place stands; the beginning of the file if there is none.
    pub(crate) fn spot(&self, place: usize) -> Spot {
        let position = match self.positions.get(place) {
            Some(position) => *position,
            None => Pos { line: 1, column: 1 },
        };
        let line = position.line as usize;
        let before = match self.lines.get(line.saturating_sub(1)) {
            Some(before) => *before,
            None => 0,
        };
        Spot {
            line,
            column: position.column as usize,
            character: place.saturating_sub(before).saturating_add(1),
        }
    }
}

/// How many characters stand before each line.
fn lines_of(alloc: Global, text: &[char]) -> Result<Vec<usize>, AllocError> {
    let mut lines = Vec::new(alloc);
    lines.push(0)?;
    for (before, c) in text.iter().enumerate() {
        if *c == '\n' {
            lines.push(before.saturating_add(1))?;
        }
    }
    Ok(lines)
}

/// Appends where a span of a file begins and ends.
pub(crate) fn push_ends(
    alloc: Global,
    page: &mut String,
    spots: &Spots,
    span: Span,
) -> Result<(), AllocError> {
    let (first, last) = spots.ends(span);
    push_number(alloc, page, "\"line\":", first.line)?;
    push_number(alloc, page, ",\"column\":", first.column)?;
    push_number(alloc, page, ",\"last_line\":", last.line)?;
    push_number(alloc, page, ",\"last_column\":", last.column)?;
    push_number(alloc, page, ",\"character\":", first.character)?;
    push_number(alloc, page, ",\"last_character\":", last.character)
}
