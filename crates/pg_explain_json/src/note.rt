//! The line of a note.

use crate::fields::{push_number, push_text};
use crate::spots::Spots;
use std::alloc::{AllocError, Global};

/// The JSON line of a note on an accepted grammar in the file with this name, and its place if it has one (ours). Fails where memory runs out.
pub fn note_line(
    alloc: Global,
    name: &str,
    spots: &Spots,
    place: Option<usize>,
    words: &str,
) -> Result<String, AllocError> {
    let mut line = String::new(alloc);
    push_text(alloc, &mut line, "{\"file\":", name)?;
    if let Some(place) = place {
        push_place(alloc, &mut line, spots, place)?;
    }
    push_text(alloc, &mut line, ",\"note\":", words)?;
    line.push_str("}\n")?;
    Ok(line)
}

/// Appends where a character stands.
fn push_place(
    alloc: Global,
    line: &mut String,
    spots: &Spots,
    place: usize,
) -> Result<(), AllocError> {
    let spot = spots.spot(place);
    push_number(alloc, line, ",\"line\":", spot.line)?;
    push_number(alloc, line, ",\"column\":", spot.column)?;
    push_number(alloc, line, ",\"character\":", spot.character)
}
