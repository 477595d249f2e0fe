//! The page of a forest, line by line.

use crate::forest_lines::{Line, lines_of};
use itoa::Buffer;
use pg_text::Pos;
use pg_text_excerpt::positions;
use pg_trail_places::{DerivedText, Stretch, stretches_along};
use pg_tree::{Forest, push_quoted};
use std::alloc::{AllocError, Global};

/// The greatest depth to which a line is indented.
const MOST_LEVELS: usize = 40;

/// The greatest number of bytes of a line beside its label or text: its indentation, three numbers and the characters between.
const BESIDE: usize = 160;

/// The contents of a forest's page: its nodes and leaves, and where they begin.
#[derive(Drop)]
pub(crate) struct Page<'a> {
    pub lines: Vec<Line<'a>>,
    /// The stretch of each node and leaf, in the order in which they end; empty if they aren't known.
    stretches: Vec<Stretch>,
    positions: Vec<Pos>,
}

impl<'a> Page<'a> {
    /// The page of a text's forest, to which its trail leads.
    pub(crate) fn of(
        alloc: Global,
        derived: &DerivedText<'_>,
        forest: &'a Forest,
    ) -> Result<Page<'a>, AllocError> {
        let mut stretches = stretches_along(alloc, derived)?;
        let lines = lines_of(alloc, forest)?;
        if stretches.len() != lines.len() {
            stretches.clear();
        }
        let positions = positions(alloc, derived.text.characters())?;
        Ok(Page {
            lines,
            stretches,
            positions,
        })
    }

    /// The greatest number of bytes that a line has.
    pub(crate) fn longest_line(&self) -> usize {
        let mut longest: usize = 0;
        for line in &self.lines {
            longest = longest.max(quoted_length(line.name));
        }
        longest.saturating_mul(2).saturating_add(BESIDE)
    }

    /// Appends the line with this number to `piece`, if it has a line of its own.
    pub(crate) fn push_line(&self, number: usize, piece: &mut Vec<u8>) -> Result<(), AllocError> {
        let Some(line) = self.lines.get(number) else {
            return Ok(());
        };
        if self.is_beside(number) {
            return Ok(());
        }
        push_indentation(line.depth as usize, piece)?;
        push_name(line, piece)?;
        self.push_position(line, piece)?;
        let next = number.saturating_add(1);
        if self.is_beside(next) {
            self.push_leaf(next, piece)?;
        }
        piece.extend_from_slice(b"\n")
    }

    /// Whether this is a leaf on the line of the node before it: the only one in it, which begins where the node does.
    fn is_beside(&self, number: usize) -> bool {
        let Some(line) = self.lines.get(number) else {
            return false;
        };
        let Some(before) = self.lines.get(number.saturating_sub(1)) else {
            return false;
        };
        let is_last = match self.lines.get(number.saturating_add(1)) {
            Some(after) => after.depth < line.depth,
            None => true,
        };
        line.is_leaf
            && before.depth < line.depth
            && is_last
            && self.place_of(line) == self.place_of(before)
    }

    fn place_of(&self, line: &Line) -> Option<usize> {
        let after = line.after as usize;
        let number = self.stretches.len().checked_sub(after.saturating_add(1))?;
        self.stretches
            .get(number)
            .map(|stretch| stretch.start as usize)
    }

    /// Appends the leaf's text to `piece`.
    fn push_leaf(&self, number: usize, piece: &mut Vec<u8>) -> Result<(), AllocError> {
        match self.lines.get(number) {
            Some(line) => {
                piece.extend_from_slice(b" ")?;
                push_quoted(line.name, piece)
            }
            None => Ok(()),
        }
    }

    /// Appends the line and the column at which it begins, if they are known.
    fn push_position(&self, line: &Line, piece: &mut Vec<u8>) -> Result<(), AllocError> {
        let Some(place) = self.place_of(line) else {
            return Ok(());
        };
        let Some(position) = self.positions.get(place) else {
            return Ok(());
        };
        piece.extend_from_slice(b" ")?;
        push_number(u64::from(position.line), piece)?;
        piece.extend_from_slice(b":")?;
        push_number(u64::from(position.column), piece)
    }
}

/// Appends a leaf's text in quotes, or a node's label, without quotes if it is one word.
fn push_name(line: &Line, piece: &mut Vec<u8>) -> Result<(), AllocError> {
    if line.is_leaf {
        return push_quoted(line.name, piece);
    }
    if is_word(line.name) {
        return piece.extend_from_slice(line.name);
    }
    piece.extend_from_slice(b"node ")?;
    push_quoted(line.name, piece)
}

/// Whether these are one or more characters without a space or a character that JSON escapes.
fn is_word(label: &[u8]) -> bool {
    !label.is_empty()
        && label
            .iter()
            .all(|byte| *byte > b' ' && *byte != b'"' && *byte != b'\\')
}

/// The greatest number of bytes that a text has in quotes.
fn quoted_length(text: &[u8]) -> usize {
    let mut length: usize = 2;
    for byte in text {
        let own = match *byte {
            b'"' | b'\\' => 2,
            0..=0x1f => 6,
            _ => 1,
        };
        length = length.saturating_add(own);
    }
    length
}

/// Appends two spaces a level. Deeper lines aren't indented further, and begin with their depth.
fn push_indentation(depth: usize, piece: &mut Vec<u8>) -> Result<(), AllocError> {
    for _ in 0..depth.min(MOST_LEVELS) {
        piece.extend_from_slice(b"  ")?;
    }
    if depth > MOST_LEVELS {
        push_number(depth as u64, piece)?;
        piece.extend_from_slice(b"> ")?;
    }
    Ok(())
}

fn push_number(number: u64, piece: &mut Vec<u8>) -> Result<(), AllocError> {
    let mut buffer = Buffer::new();
    piece.extend_from_slice(buffer.format(number).as_bytes())
}
