//! Other names for what a document defines.

use crate::asking::Answer;
use crate::params::new_name;
use crate::sheet::Sheet;
use pg_file_items::Span;
use pg_pred::Registry;
use pg_server_messages::ErrorCode;
use pg_server_names::{
    Refusal, RenameError, Which, characters_in, name_at, names_of, places, renamed,
};
use pg_text::{characters_of, utf8};
use serde_json::{Value, json};
use std::alloc::{AllocError, Global};

/// The range of the name at a place and its characters, if an item of the document defines it; else null.
pub(crate) fn prepared(alloc: Global, sheet: Sheet, place: usize) -> Result<Value, AllocError> {
    match defined_at(alloc, sheet.text, place)? {
        Some(span) => named(alloc, sheet, span),
        None => Ok(Value::Null),
    }
}

/// The characters of the name at a place, if an item defines it.
fn defined_at(alloc: Global, text: &[char], place: usize) -> Result<Option<Span>, AllocError> {
    let names = names_of(alloc, text)?;
    let defined = places(alloc, text, names.as_slice(), place, Which::Definitions)?;
    if defined.is_empty() {
        return Ok(None);
    }
    Ok(name_at(names.as_slice(), place).map(|name| name.span))
}

/// A range, and what stands there.
fn named(alloc: Global, sheet: Sheet, span: Span) -> Result<Value, AllocError> {
    let range = sheet.range(alloc, span)?;
    let name = utf8(alloc, characters_in(sheet.text, span))?;
    json!(in alloc; {"range": range, "placeholder": name})
}

/// The edits that give the new name of the parameters to what has the name at a place.
pub(crate) fn rename(
    alloc: Global,
    registry: &Registry,
    sheet: Sheet,
    place: usize,
    params: &Value,
) -> Result<Answer, AllocError> {
    match new_name(params) {
        Some(name) => renamed_to(alloc, registry, sheet, place, name),
        None => Ok(Answer::Refused(ErrorCode::InvalidParams, "the parameters have no new name")),
    }
}

/// The edits that give this name to what has the name at a place, or why it can't have it.
fn renamed_to(
    alloc: Global,
    registry: &Registry,
    sheet: Sheet,
    place: usize,
    name: &str,
) -> Result<Answer, AllocError> {
    match spans_to(alloc, registry, sheet.text, place, name) {
        Ok(spans) => edits_of(alloc, sheet, spans.as_slice(), name),
        Err(RenameError::Refused(refusal)) => Ok(Answer::Refused(
            ErrorCode::RequestFailed,
            words_of(refusal),
        )),
        Err(RenameError::Memory) => Err(AllocError),
    }
}

/// The characters that get this name.
fn spans_to(
    alloc: Global,
    registry: &Registry,
    text: &[char],
    place: usize,
    name: &str,
) -> Result<Vec<Span>, RenameError> {
    let names = names_of(alloc, text)?;
    let new = characters_of(alloc, name)?;
    renamed(
        alloc,
        registry,
        text,
        names.as_slice(),
        place,
        new.as_slice(),
    )
}

/// The edits that put a name in the place of these characters.
fn edits_of(alloc: Global, sheet: Sheet, spans: &[Span], name: &str) -> Result<Answer, AllocError> {
    let mut edits = Vec::new(alloc);
    for span in spans {
        edits.push(sheet.edit(alloc, *span, name)?)?;
    }
    let edit = sheet.workspace_edit(alloc, Value::Array(edits))?;
    Ok(Answer::Granted(edit))
}

/// Why a name can't become the new one.
fn words_of(refusal: Refusal) -> &'static str {
    match refusal {
        Refusal::NotDefined => "no name that an item of the file defines is there",
        Refusal::NoName => {
            "a name is a letter, and then letters, digits and `_`, with 64 characters at most"
        }
        Refusal::Reserved => "the new name is a reserved word",
        Refusal::Taken => "the new name is taken",
        Refusal::Predicate => "the new name is a predicate's",
    }
}
