//! What is said of the rule or the form at a place.

use crate::sheet::Sheet;
use pg_bench_grammar::{BenchFault, Judgement, LoadedFile, load};
use pg_explain_context::GrammarFile;
use pg_pred::Registry;
use pg_server_hover::{Hover, HoverFile, hover_at};
use serde_json::{Value, json};
use std::alloc::{AllocError, Global};

/// What is said of the rule or the form at a place; null where neither is, and in a document that spells no grammar.
pub(crate) fn hovered(
    alloc: Global,
    registry: &Registry,
    sheet: Sheet,
    place: usize,
) -> Result<Value, AllocError> {
    match load(alloc, "", sheet.document.text.as_bytes(), registry) {
        Ok(loaded) => hovered_in(alloc, sheet, loaded, place),
        Err(fault) => {
            pass_over(fault)?;
            Ok(Value::Null)
        }
    }
}

/// Passes over a fault of a document, and fails if it is that memory ran out.
pub(crate) fn pass_over(fault: BenchFault) -> Result<(), AllocError> {
    let is_memory = matches!(&fault, BenchFault::Memory);
    drop(fault);
    if is_memory { Err(AllocError) } else { Ok(()) }
}

/// As `hovered`, for a loaded file.
fn hovered_in(
    alloc: Global,
    sheet: Sheet,
    loaded: LoadedFile,
    place: usize,
) -> Result<Value, AllocError> {
    let said = said_at(alloc, &loaded, place);
    drop(loaded);
    match said? {
        Some(said) => page(alloc, sheet, &said),
        None => Ok(Value::Null),
    }
}

fn said_at(alloc: Global, loaded: &LoadedFile, place: usize) -> Result<Option<Hover>, AllocError> {
    let (sets, cost) = match &loaded.judgement {
        Judgement::Accepted(checked) => (checked.sets(), Some(checked.cost())),
        Judgement::Refused(refused) => (refused.sets(), None),
    };
    let file = GrammarFile {
        name: loaded.name,
        text: loaded.characters.as_slice(),
        spans: loaded.spans.as_slice(),
    };
    let file = HoverFile {
        file: &file,
        grammar: loaded.judgement.grammar(),
        sets,
        cost,
    };
    hover_at(alloc, &file, place)
}

fn page(alloc: Global, sheet: Sheet, said: &Hover) -> Result<Value, AllocError> {
    let range = sheet.range(alloc, said.span)?;
    let words = said.page.as_str();
    json!(in alloc; {"contents": {"kind": "plaintext", "value": words}, "range": range})
}
