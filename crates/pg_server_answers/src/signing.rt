//! The form around a place.

use crate::sheet::Sheet;
use pg_file_items::Span;
use pg_server_completion::{Signature, signature_at};
use serde_json::{Value, json};
use std::alloc::{AllocError, Global};

/// The number of the first signature.
const FIRST: u64 = 0;

/// How the form around a place is written, and which part the place is in; null outside of all.
pub(crate) fn signed(alloc: Global, sheet: Sheet, place: usize) -> Result<Value, AllocError> {
    match signature_at(alloc, sheet.text, place)? {
        Some(found) => help(alloc, &found),
        None => Ok(Value::Null),
    }
}

fn help(alloc: Global, found: &Signature) -> Result<Value, AllocError> {
    let signature = written(alloc, found)?;
    let active = Value::from(found.active);
    json!(in alloc; {
        "signatures": [signature],
        "activeSignature": FIRST,
        "activeParameter": active
    })
}

/// How a form is written.
fn written(alloc: Global, found: &Signature) -> Result<Value, AllocError> {
    let parameters = parameters(alloc, found.parts.as_slice())?;
    let label = found.line.written;
    let documentation = found.line.line;
    json!(in alloc; {"label": label, "documentation": documentation, "parameters": parameters})
}

/// The parts. What is written is ASCII, so a byte is a unit.
fn parameters(alloc: Global, parts: &[Span]) -> Result<Value, AllocError> {
    let mut list = Vec::new(alloc);
    for part in parts {
        list.push(parameter(alloc, *part)?)?;
    }
    Ok(Value::Array(list))
}

fn parameter(alloc: Global, part: Span) -> Result<Value, AllocError> {
    let first = Value::from(part.first);
    let after = Value::from(part.after);
    json!(in alloc; {"label": [first, after]})
}
