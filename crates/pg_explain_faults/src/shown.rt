//! Pieces of a file, and lines on the page.

use crate::tokens::Tokens;
use pg_text_excerpt::is_shown;
use std::alloc::{AllocError, Global};

/// The most characters of a token that are shown.
const MOST: usize = 40;

/// Appends a line to the page.
pub(crate) fn push_line(page: &mut String, words: &str) -> Result<(), AllocError> {
    page.push_str("  ")?;
    page.push_str(words)?;
    page.push_str("\n")
}

/// What stands at a place, as it was written, or that the file ends there.
pub(crate) fn shown(alloc: Global, tokens: &Tokens, place: usize) -> Result<String, AllocError> {
    if place >= tokens.text.len() {
        return String::from_str(alloc, "the end of the file");
    }
    let end = tokens.end(place);
    let mut words = String::from_str(alloc, "`")?;
    for at in place..end.min(place.saturating_add(MOST)) {
        match tokens.text.get(at) {
            Some(c) if is_shown(*c) => words.push(*c)?,
            Some(_) => words.push('\u{fffd}')?,
            None => {}
        }
    }
    if end > place.saturating_add(MOST) {
        words.push_str("..")?;
    }
    words.push_str("`")?;
    Ok(words)
}

/// A name in quotes.
pub(crate) fn quoted(alloc: Global, name: &[char]) -> Result<String, AllocError> {
    let mut words = String::from_str(alloc, "`")?;
    for c in name {
        words.push(*c)?;
    }
    words.push_str("`")?;
    Ok(words)
}
