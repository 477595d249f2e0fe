//! The part of a line that is shown.

use crate::marks::Mark;
use crate::text_lines::{Line, line_at};

/// How many characters of a line are shown at most.
const MOST: usize = 100;

/// How far back from a cut a word may begin for the cut to move before it.
const WORD: usize = 20;

/// The part of a line that is shown: all of it, unless it is long.
#[derive(Clone, Copy)]
pub(crate) struct Window {
    pub(crate) line: Line,
    /// How many characters of the text stand before it.
    pub(crate) from: usize,
    /// How many characters of the text stand before its end.
    pub(crate) to: usize,
}

impl Window {
    /// The part around the beginning of a mark.
    pub(crate) fn around(text: &[char], mark: &Mark) -> Window {
        let line = line_at(text, mark.first);
        let from = beginning(text, line, mark.first);
        let to = ending(text, line, from);
        Window { line, from, to }
    }

    /// Whether a mark begins in it.
    pub(crate) fn has(&self, mark: &Mark) -> bool {
        self.from <= mark.first
            && (mark.first < self.to || (mark.first == self.to && self.to == self.line.after))
    }

    /// Whether the line begins before it.
    pub(crate) fn is_cut_before(&self) -> bool {
        self.line.first < self.from
    }

    /// Whether the line goes on after it.
    pub(crate) fn is_cut_after(&self) -> bool {
        self.to < self.line.after
    }
}

/// Where the part begins: at the beginning of the line, unless the place is far behind that.
fn beginning(text: &[char], line: Line, place: usize) -> usize {
    let long = line.after.saturating_sub(line.first) > MOST;
    if long && place.saturating_sub(line.first) > MOST / 2 {
        word_before(text, place.saturating_sub(MOST / 4))
    } else {
        line.first
    }
}

/// Where the part ends: at the end of the line, unless that is far.
fn ending(text: &[char], line: Line, from: usize) -> usize {
    let to = from.saturating_add(MOST);
    if to < line.after {
        word_before(text, to)
    } else {
        line.after
    }
}

/// Where the word at a place begins, or the place itself if the word is too long.
fn word_before(text: &[char], place: usize) -> usize {
    for back in 0..WORD {
        let begin = place.saturating_sub(back);
        if is_space(text, begin.saturating_sub(1)) {
            return begin;
        }
    }
    place
}

/// Whether there is a blank at a place.
fn is_space(text: &[char], place: usize) -> bool {
    match text.get(place) {
        Some(c) => *c == ' ' || *c == '\t',
        None => false,
    }
}
