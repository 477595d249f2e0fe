//! An excerpt of a file: its place, and the lines with marks.

use crate::columns::{push_shown, push_times};
use crate::marks::Mark;
use crate::rows::push_rows;
use crate::windows::Window;
use pg_text::position_in;
use std::alloc::{AllocError, Global};

/// The last place that has a position of its own.
const LAST_PLACE: usize = (1 << 28) - 1;

/// Stands for what was cut from a long line.
const CUT: &str = "..";

/// Pushes a place in a file, and the lines in which the marks begin, with the marks below them (ours). The marks have to be in the order of their first
/// characters.
pub fn push_excerpt(
    alloc: Global,
    page: &mut String,
    name: &str,
    text: &[char],
    place: usize,
    marks: &[Mark],
) -> Result<(), AllocError> {
    let position = position_in(text, place.min(text.len()).min(LAST_PLACE));
    let line = position.line;
    let column = position.column;
    let gutter = gutter_of(alloc, text, marks)?;
    push_times(page, ' ', gutter)?;
    let words = format!(in alloc; "--> {name}:{line}:{column}\n")?;
    page.push_str(words.as_str())?;
    push_bar(page, gutter)?;
    push_lines(alloc, page, text, marks, gutter)?;
    push_bar(page, gutter)
}

/// Pushes a line with nothing but the bar.
fn push_bar(page: &mut String, gutter: usize) -> Result<(), AllocError> {
    push_times(page, ' ', gutter)?;
    page.push_str(" |\n")
}

/// The width of the line numbers.
fn gutter_of(alloc: Global, text: &[char], marks: &[Mark]) -> Result<usize, AllocError> {
    match marks.split_last() {
        Some((last, _)) => {
            let number = Window::around(text, last).line.number;
            let digits = format!(in alloc; "{number}")?;
            Ok(digits.len())
        }
        None => Ok(1),
    }
}

/// Pushes the lines in which marks begin.
fn push_lines(
    alloc: Global,
    page: &mut String,
    text: &[char],
    marks: &[Mark],
    gutter: usize,
) -> Result<(), AllocError> {
    let mut next: usize = 0;
    let mut before: usize = 0;
    for _ in 0..marks.len() {
        let Some(mark) = marks.get(next) else {
            break;
        };
        let window = Window::around(text, mark);
        push_gap(page, before, &window)?;
        before = window.line.number;
        let within = marks_within(alloc, marks, next, &window)?;
        next = next.saturating_add(within.len().max(1));
        push_line(alloc, page, text, &window, gutter)?;
        let lead = lead_of(alloc, gutter, &window)?;
        push_rows(alloc, page, text, &window, &within, lead.as_str())?;
    }
    Ok(())
}

/// Pushes a sign that lines are left out, if they are.
fn push_gap(page: &mut String, before: usize, window: &Window) -> Result<(), AllocError> {
    if before > 0 && window.line.number > before.saturating_add(1) {
        page.push_str("..\n")
    } else {
        Ok(())
    }
}

/// The marks, from an index on, that begin in a part of a line.
fn marks_within(
    alloc: Global,
    marks: &[Mark],
    next: usize,
    window: &Window,
) -> Result<Vec<Mark>, AllocError> {
    let mut within = Vec::new(alloc);
    for number in next..marks.len() {
        match marks.get(number) {
            Some(mark) if window.has(mark) => within.push(*mark)?,
            Some(_) | None => break,
        }
    }
    Ok(within)
}

/// Pushes a line, or a part of it, with its number.
fn push_line(
    alloc: Global,
    page: &mut String,
    text: &[char],
    window: &Window,
    gutter: usize,
) -> Result<(), AllocError> {
    let number = window.line.number;
    let digits = format!(in alloc; "{number}")?;
    push_times(page, ' ', gutter.saturating_sub(digits.len()))?;
    page.push_str(digits.as_str())?;
    page.push_str(" | ")?;
    if window.is_cut_before() {
        page.push_str(CUT)?;
    }
    for place in window.from..window.to {
        match text.get(place) {
            Some(c) => push_shown(page, *c)?,
            None => {}
        }
    }
    if window.is_cut_after() {
        page.push_str(CUT)?;
    }
    page.push_str("\n")
}

/// The text before the marks of a line.
fn lead_of(alloc: Global, gutter: usize, window: &Window) -> Result<String, AllocError> {
    let mut lead = String::new(alloc);
    push_times(&mut lead, ' ', gutter)?;
    lead.push_str(" | ")?;
    if window.is_cut_before() {
        push_times(&mut lead, ' ', CUT.len())?;
    }
    Ok(lead)
}
