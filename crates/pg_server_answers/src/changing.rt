//! Changes that cure findings.

use crate::hovering::pass_over;
use crate::params::wants_fixes;
use crate::sheet::Sheet;
use pg_bench_explain::{TriedChange, tried_changes};
use pg_bench_grammar::load;
use pg_file_items::Span;
use pg_pred::Registry;
use serde_json::{Value, json};
use std::alloc::{AllocError, Global};

/// The changes that cure the findings in a range, the best for each. Of a document that spells no grammar, and where other kinds of actions are asked for,
/// there are none.
pub(crate) fn changes(
    alloc: Global,
    registry: &Registry,
    sheet: Sheet,
    range: Span,
    params: &Value,
) -> Result<Value, AllocError> {
    if !wants_fixes(params) {
        return Ok(Value::Array(Vec::new(alloc)));
    }
    let tried = tried_in(alloc, registry, sheet.document.text, range)?;
    let listed = listed(alloc, sheet, tried.as_slice());
    drop(tried);
    listed
}

/// The changes that cure the findings in a range of a text.
fn tried_in(
    alloc: Global,
    registry: &Registry,
    text: &str,
    range: Span,
) -> Result<Vec<TriedChange>, AllocError> {
    match load(alloc, "", text.as_bytes(), registry) {
        Ok(loaded) => {
            let tried = tried_changes(alloc, &loaded, registry, range);
            drop(loaded);
            tried
        }
        Err(fault) => {
            pass_over(fault)?;
            Ok(Vec::new(alloc))
        }
    }
}

/// The actions that these changes are. The first is preferred if trees stay the same.
fn listed(alloc: Global, sheet: Sheet, tried: &[TriedChange]) -> Result<Value, AllocError> {
    let mut list = Vec::new(alloc);
    for (number, change) in tried.iter().enumerate() {
        let is_preferred = number == 0 && change.keeps_trees;
        list.push(action(alloc, sheet, change, is_preferred)?)?;
    }
    Ok(Value::Array(list))
}

fn action(
    alloc: Global,
    sheet: Sheet,
    change: &TriedChange,
    is_preferred: bool,
) -> Result<Value, AllocError> {
    let edit = edit_of(alloc, sheet, change)?;
    let words = change.words.as_str();
    json!(in alloc; {
        "title": words,
        "kind": "quickfix",
        "isPreferred": is_preferred,
        "edit": edit
    })
}

fn edit_of(alloc: Global, sheet: Sheet, change: &TriedChange) -> Result<Value, AllocError> {
    let edit = sheet.edit(alloc, change.replaced, change.text.as_str())?;
    let edits = json!(in alloc; [edit])?;
    sheet.workspace_edit(alloc, edits)
}
