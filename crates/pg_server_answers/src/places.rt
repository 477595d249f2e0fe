//! Where names are defined and used.

use crate::params::wants_declaration;
use crate::sheet::Sheet;
use pg_file_items::Span;
use pg_server_names::{Which, names_of, places};
use serde_json::{Value, json};
use std::alloc::{AllocError, Global};

/// Where the name at a place is defined; null if it is nowhere.
pub(crate) fn definition(alloc: Global, sheet: Sheet, place: usize) -> Result<Value, AllocError> {
    located(alloc, sheet, place, Which::Definitions)
}

/// Where the name at a place is used, and defined if the parameters ask for that; null if it is nowhere.
pub(crate) fn references(
    alloc: Global,
    sheet: Sheet,
    place: usize,
    params: &Value,
) -> Result<Value, AllocError> {
    let which = if wants_declaration(params) {
        Which::Both
    } else {
        Which::Uses
    };
    located(alloc, sheet, place, which)
}

/// The locations of the name at a place that are asked for.
fn located(alloc: Global, sheet: Sheet, place: usize, which: Which) -> Result<Value, AllocError> {
    let spans = spans_of(alloc, sheet.text, place, which)?;
    let found = locations(alloc, sheet, spans.as_slice());
    drop(spans);
    found
}

/// The characters where the name at a place is that are asked for.
pub(crate) fn spans_of(
    alloc: Global,
    text: &[char],
    place: usize,
    which: Which,
) -> Result<Vec<Span>, AllocError> {
    let names = names_of(alloc, text)?;
    let spans = places(alloc, text, names.as_slice(), place, which);
    drop(names);
    spans
}

/// The locations of these characters; null if there are none.
fn locations(alloc: Global, sheet: Sheet, spans: &[Span]) -> Result<Value, AllocError> {
    if spans.is_empty() {
        return Ok(Value::Null);
    }
    let mut list = Vec::new(alloc);
    for span in spans {
        list.push(location(alloc, sheet, *span)?)?;
    }
    Ok(Value::Array(list))
}

fn location(alloc: Global, sheet: Sheet, span: Span) -> Result<Value, AllocError> {
    let range = sheet.range(alloc, span)?;
    let uri = sheet.document.uri;
    json!(in alloc; {"uri": uri, "range": range})
}
