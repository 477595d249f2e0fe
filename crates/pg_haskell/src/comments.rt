//! Comments of the file that stand before a rule.
//!
//! A line that begins with `#` behind blanks is a comment, for no literal goes over a line's end. Those right above the line of a rule's name are the rule's.

use std::alloc::AllocError;

/// Pushes the comments on the lines right above that of a place, as Haskell writes them, if nothing but blanks stands before it on its line.
pub(crate) fn push_comments(
    page: &mut String,
    characters: &[char],
    place: usize,
) -> Result<(), AllocError> {
    let Some(line) = line_of(characters, place) else {
        return Ok(());
    };
    let first = first_comment(characters, line);
    let Some(comments) = characters.get(first..line) else {
        return Ok(());
    };
    for comment in comments.split(|c| *c == '\n') {
        push_comment(page, comment)?;
    }
    Ok(())
}

/// Where the line of a place begins, if only blanks stand between.
fn line_of(characters: &[char], place: usize) -> Option<usize> {
    let mut start = place;
    for _ in 0..place {
        let before = start.saturating_sub(1);
        match characters.get(before) {
            Some('\n') => return Some(start),
            Some(' ' | '\t') => start = before,
            _ => return None,
        }
    }
    Some(start)
}

/// Where the line of a place begins.
fn line_start(characters: &[char], place: usize) -> usize {
    let mut start = place;
    for _ in 0..place {
        let before = start.saturating_sub(1);
        if characters.get(before) == Some(&'\n') {
            break;
        }
        start = before;
    }
    start
}

/// Where the first of the comments begins that stand right above a line.
fn first_comment(characters: &[char], line: usize) -> usize {
    let mut first = line;
    for _ in 0..line {
        let above = line_start(characters, first.saturating_sub(1));
        if first == 0 || !is_comment(characters, above) {
            break;
        }
        first = above;
    }
    first
}

/// Whether a comment begins at a place, behind blanks.
fn is_comment(characters: &[char], place: usize) -> bool {
    let Some(rest) = characters.get(place..) else {
        return false;
    };
    match rest.iter().find(|c| **c != ' ' && **c != '\t') {
        Some(c) => *c == '#',
        None => false,
    }
}

/// Pushes a comment as Haskell writes it, if the line has one.
fn push_comment(page: &mut String, line: &[char]) -> Result<(), AllocError> {
    let Some(mark) = line.iter().position(|c| *c == '#') else {
        return Ok(());
    };
    let comment = match line {
        [before @ .., '\r'] => before,
        _ => line,
    };
    let words = comment.get(mark.saturating_add(1)..).unwrap_or(&[]);
    page.push_str(before_comment(words))?;
    for c in words {
        page.push(shown(*c))?;
    }
    page.push_str("\n")
}

/// What begins a comment with these words. Two hyphens with another mark behind them would be an operator.
fn before_comment(words: &[char]) -> &'static str {
    match words {
        [] | [' ', ..] => "--",
        _ => "-- ",
    }
}

/// A character as a comment has it: not one that isn't seen, or that changes how those beside it are seen.
fn shown(c: char) -> char {
    match c {
        '\t' => ' ',
        ' '..='~'
        | '\u{a1}'..='\u{1fff}'
        | '\u{2010}'..='\u{2027}'
        | '\u{2030}'..='\u{205e}'
        | '\u{2070}'..='\u{fefe}'
        | '\u{ff01}'..='\u{ffef}'
        | '\u{10000}'..='\u{dffff}' => c,
        _ => '?',
    }
}
