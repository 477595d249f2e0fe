//! The notes on an accepted grammar.
ghost use Rattle.std.specs.Prelude.{IfOk};
ghost use Rattle.pg_server_diagnostics.specs.Hints.{AreHints, IsHint};

use crate::diagnosed::MOST;
use crate::diagnostic::{Diagnostic, Severity};
use crate::places::word_at;
use pg_explain_notes::{Note, notes_on};
use pg_file_items::Span;
use pg_grammar_value::Grammar;
use std::alloc::{AllocError, Global};

/// The notes on a grammar whose nodes have these spans in a file with this text, the first `MOST` of them. They are hints.
pub(crate) fn notes_told(
    alloc: Global,
    grammar: &Grammar,
    spans: &[Span],
    text: &[char],
) -> Result<Vec<Diagnostic>, AllocError>
    ensures { IfOk result (λ found. AreHints found.items) }
{
    let notes = notes_on(alloc, grammar, spans)?;
    let mut found = Vec::new(alloc);
    for note in notes.into_iter().take(MOST) {
        found.push(note_told(alloc, note, text))?;
    }
    Ok(found)
}

/// The diagnostic of a note. One without a place stands at the beginning of the file.
fn note_told(alloc: Global, note: Note, text: &[char]) -> Diagnostic
    ensures { IsHint result }
{
    let Note { words, place } = note;
    let span = match place {
        Some(place) => word_at(text, place),
        None => Span { first: 0, after: 0 },
    };
    Diagnostic {
        span,
        severity: Severity::Hint,
        code: None,
        message: words,
        others: Vec::new(alloc),
    }
}
