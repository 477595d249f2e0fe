//! Places of faults in a document.

use pg_file_items::Span;
use pg_text::{Pos, advanced};

/// How many characters of a text stand before this position, or in it if the position is past the text.
pub(crate) fn place_of(text: &[char], position: Pos) -> usize {
    let mut at = Pos { line: 1, column: 1 };
    for (place, c) in text.iter().enumerate() {
        if at.line > position.line || (at.line == position.line && at.column >= position.column) {
            return place;
        }
        at = advanced(at, *c);
    }
    text.len()
}

/// The word that begins at a place; else the character there, or nothing at the end of a line.
pub(crate) fn word_at(text: &[char], place: usize) -> Span {
    let rest = text.get(place..).unwrap_or(&[]);
    let word = rest.iter().take_while(|c| is_of_word(**c)).count();
    let length = match rest.first() {
        Some('\n' | '\r') | None => 0,
        Some(_) => word.max(1),
    };
    Span {
        first: place,
        after: place.saturating_add(length),
    }
}

/// Whether a character may stand in a name.
fn is_of_word(c: char) -> bool {
    c.is_ascii_alphanumeric() || c == '_'
}
