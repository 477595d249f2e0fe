//! What can be written at a place.

use crate::sheet::Sheet;
use pg_file_items::Span;
use pg_server_completion::{Line, Offer, WordKind, completion_at, name_line};
use pg_server_names::NameKind;
use pg_text::utf8;
use serde_json::{Value, json};
use std::alloc::{AllocError, Global};

/// What can be written at a place, each with an edit that puts it in the place of what has been begun there.
pub(crate) fn completed(alloc: Global, sheet: Sheet, place: usize) -> Result<Value, AllocError> {
    let found = completion_at(alloc, sheet.text, place)?;
    let listed = listed(alloc, sheet, found.replaced, found.offers.as_slice());
    drop(found);
    listed
}

/// The list of these offers.
fn listed(
    alloc: Global,
    sheet: Sheet,
    replaced: Span,
    offers: &[Offer],
) -> Result<Value, AllocError> {
    let mut list = Vec::new(alloc);
    for offer in offers {
        list.push(offered(alloc, sheet, replaced, offer)?)?;
    }
    Ok(Value::Array(list))
}

fn offered(
    alloc: Global,
    sheet: Sheet,
    replaced: Span,
    offer: &Offer,
) -> Result<Value, AllocError> {
    match offer {
        Offer::Word(kind, line) => word_offered(alloc, sheet, replaced, *kind, *line),
        Offer::Name(kind, name) => name_offered(alloc, sheet, replaced, *kind, name),
    }
}

/// The item of a word of grammar files.
fn word_offered(
    alloc: Global,
    sheet: Sheet,
    replaced: Span,
    kind: WordKind,
    line: Line,
) -> Result<Value, AllocError> {
    let edit = sheet.edit(alloc, replaced, line.word)?;
    let number = number_of_word(kind);
    let Line {
        word,
        written,
        line,
    } = line;
    json!(in alloc; {
        "label": word,
        "kind": number,
        "detail": written,
        "documentation": line,
        "textEdit": edit
    })
}

/// The item of a name of the document.
fn name_offered(
    alloc: Global,
    sheet: Sheet,
    replaced: Span,
    kind: NameKind,
    name: &[char],
) -> Result<Value, AllocError> {
    let name = utf8(alloc, name)?;
    let edit = sheet.edit(alloc, replaced, name.as_str())?;
    let (number, detail) = kind_of_name(kind);
    let line = name_line(kind);
    json!(in alloc; {
        "label": name,
        "kind": number,
        "detail": detail,
        "documentation": line,
        "textEdit": edit
    })
}

/// The protocol's number of a word's kind: a keyword, a constant, a constructor or an operator.
fn number_of_word(kind: WordKind) -> u64 {
    match kind {
        WordKind::Item | WordKind::Form | WordKind::Part => 14,
        WordKind::Predicate => 21,
        WordKind::Builder => 4,
        WordKind::Role => 24,
    }
}

/// The protocol's number of a name's kind, a function, a class or a structure, and its word.
fn kind_of_name(kind: NameKind) -> (u64, &'static str) {
    match kind {
        NameKind::Rule => (3, "rule"),
        NameKind::Class => (7, "class"),
        NameKind::Word => (22, "word"),
    }
}
