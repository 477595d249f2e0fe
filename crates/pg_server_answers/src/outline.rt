//! The items of a document.

use crate::sheet::Sheet;
use pg_server_names::{ItemWord, Symbol, characters_in, symbols};
use pg_text::utf8;
use serde_json::{Value, json};
use std::alloc::{AllocError, Global};

/// The items of a document, in their order.
pub(crate) fn outline(alloc: Global, sheet: Sheet) -> Result<Value, AllocError> {
    let found = symbols(alloc, sheet.text)?;
    let listed = listed(alloc, sheet, found.as_slice());
    drop(found);
    listed
}

/// The list of these items.
fn listed(alloc: Global, sheet: Sheet, symbols: &[Symbol]) -> Result<Value, AllocError> {
    let mut list = Vec::new(alloc);
    for symbol in symbols {
        list.push(symbol_value(alloc, sheet, symbol)?)?;
    }
    Ok(Value::Array(list))
}

fn symbol_value(alloc: Global, sheet: Sheet, symbol: &Symbol) -> Result<Value, AllocError> {
    let name = utf8(alloc, characters_in(sheet.text, symbol.name))?;
    let range = sheet.range(alloc, symbol.whole)?;
    let selection = sheet.range(alloc, symbol.name)?;
    let (kind, detail) = kind_of(symbol.item);
    json!(in alloc; {
        "name": name,
        "detail": detail,
        "kind": kind,
        "range": range,
        "selectionRange": selection
    })
}

/// The protocol's number of an item's kind, and the item's word. A rule is a function, a kind of words a structure, `operators` an enumeration, a `table` item
/// an operator, and `start` an event.
fn kind_of(item: ItemWord) -> (u64, &'static str) {
    match item {
        ItemWord::Class => (5, "class"),
        ItemWord::Word => (23, "word"),
        ItemWord::Operators => (10, "operators"),
        ItemWord::Table => (25, "table"),
        ItemWord::Start => (24, "start"),
        ItemWord::Rule => (12, "rule"),
    }
}
