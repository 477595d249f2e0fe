//! The rows of marks below a line.

use crate::columns::{columns, push_room, push_times};
use crate::marks::Mark;
use crate::windows::Window;
use std::alloc::{AllocError, Global};

/// Pushes the marks that begin in a part of a line, in as few rows as they fit in. Each row begins with the same text.
pub(crate) fn push_rows(
    alloc: Global,
    page: &mut String,
    text: &[char],
    window: &Window,
    marks: &[Mark],
    lead: &str,
) -> Result<(), AllocError> {
    let mut left = Vec::new(alloc);
    for mark in marks {
        left.push(*mark)?;
    }
    for _ in 0..marks.len() {
        if left.is_empty() {
            break;
        }
        page.push_str(lead)?;
        left = push_row(alloc, page, text, window, &left)?;
        page.push_str("\n")?;
    }
    Ok(())
}

/// Pushes the marks that fit in one row. Returns the others.
fn push_row(
    alloc: Global,
    page: &mut String,
    text: &[char],
    window: &Window,
    marks: &[Mark],
) -> Result<Vec<Mark>, AllocError> {
    let mut left = Vec::new(alloc);
    let mut place = window.from;
    let mut is_first = true;
    for mark in marks {
        if place < mark.first || (is_first && place <= mark.first) {
            push_between(page, text, place, mark.first)?;
            push_mark(alloc, page, text, mark, window.to)?;
            place = mark.after.max(mark.first.saturating_add(1));
            is_first = false;
        } else {
            left.push(*mark)?;
        }
    }
    Ok(left)
}

/// Pushes blanks as wide as the characters from one place to another.
fn push_between(
    page: &mut String,
    text: &[char],
    from: usize,
    to: usize,
) -> Result<(), AllocError> {
    for place in from..to {
        match text.get(place) {
            Some(c) => push_room(page, *c)?,
            None => page.push(' ')?,
        }
    }
    Ok(())
}

/// Pushes a mark as wide as the part of it before the end: its number and dashes, or carets.
fn push_mark(
    alloc: Global,
    page: &mut String,
    text: &[char],
    mark: &Mark,
    end: usize,
) -> Result<(), AllocError> {
    let wide = width(text, mark.first, mark.after.min(end)).max(1);
    match mark.number {
        Some(number) => {
            let digits = format!(in alloc; "{number}")?;
            page.push_str(digits.as_str())?;
            push_times(page, '-', wide.saturating_sub(digits.len()))
        }
        None => push_times(page, '^', wide),
    }
}

/// How many columns the characters from one place to another take.
fn width(text: &[char], from: usize, to: usize) -> usize {
    let mut wide: usize = 0;
    for place in from..to {
        match text.get(place) {
            Some(c) => wide = wide.saturating_add(columns(*c)),
            None => {}
        }
    }
    wide
}
