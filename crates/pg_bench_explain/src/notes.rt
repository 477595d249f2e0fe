//! Notes on an accepted grammar.

use crate::explain::lent;
use pg_bench_grammar::{Judgement, LoadedFile};
use pg_explain::GrammarFile;
use pg_explain_json::{Spots, note_line};
use pg_explain_notes::{Note, notes_on};
use pg_grammar_value::Grammar;
use pg_text::position_in;
use std::alloc::{AllocError, Global};

/// The last place with a position of its own.
const LAST_PLACE: usize = (1 << 28) - 1;

/// A line for each rule that derives no text or that the start rule doesn't reach, for each symbol for which a builder has no use, and for each class and
/// each word item that nothing uses.
pub(crate) fn notes(
    alloc: Global,
    grammar: &Grammar,
    file: &GrammarFile,
) -> Result<String, AllocError> {
    let notes = notes_on(alloc, grammar, file.spans)?;
    let mut page = String::new(alloc);
    for note in &notes {
        push_note(alloc, &mut page, file.text, note)?;
    }
    Ok(page)
}

/// Appends a note as a line.
fn push_note(
    alloc: Global,
    page: &mut String,
    text: &[char],
    note: &Note,
) -> Result<(), AllocError> {
    page.push_str("note: ")?;
    page.push_str(note.words.as_str())?;
    if let Some(place) = note.place {
        push_position(alloc, page, text, place)?;
    }
    page.push_str("\n")
}

/// Appends the line and the column of a place.
fn push_position(
    alloc: Global,
    page: &mut String,
    text: &[char],
    place: usize,
) -> Result<(), AllocError> {
    let position = position_in(text, place.min(text.len()).min(LAST_PLACE));
    let line = position.line;
    let column = position.column;
    let words = format!(in alloc; " ({line}:{column})")?;
    page.push_str(words.as_str())
}

/// The notes on the grammar of a loaded file as lines of JSON, if it is accepted; empty if it isn't (ours). Fails where memory runs out.
pub fn json_notes(alloc: Global, loaded: &LoadedFile) -> Result<String, AllocError> {
    match &loaded.judgement {
        Judgement::Accepted(checked) => note_lines(
            alloc,
            checked.grammar(),
            loaded.name,
            &lent(loaded),
        ),
        Judgement::Refused(_) => Ok(String::new(alloc)),
    }
}

/// The notes on a grammar as lines of JSON.
fn note_lines(
    alloc: Global,
    grammar: &Grammar,
    name: &str,
    file: &GrammarFile,
) -> Result<String, AllocError> {
    let notes = notes_on(alloc, grammar, file.spans)?;
    let spots = Spots::of(alloc, file.text)?;
    let mut page = String::new(alloc);
    for note in &notes {
        push_note_line(alloc, &mut page, name, &spots, note)?;
    }
    Ok(page)
}

/// Appends a note as a line of JSON.
fn push_note_line(
    alloc: Global,
    page: &mut String,
    name: &str,
    spots: &Spots,
    note: &Note,
) -> Result<(), AllocError> {
    let line = note_line(alloc, name, spots, note.place, note.words.as_str())?;
    page.push_str(line.as_str())
}
