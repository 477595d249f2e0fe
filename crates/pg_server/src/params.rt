//! The parameters of messages.

use serde_json::Value;

/// The URI of the document that a message is about, if it has one.
pub(crate) fn uri_of(params: &Value) -> Option<&str> {
    params.get("textDocument")?.get("uri")?.as_str()
}

/// The version of the document that a message has, 0 if it has none.
pub(crate) fn version_of(params: &Value) -> i64 {
    match params.get("textDocument") {
        Some(document) => match document.get("version") {
            Some(version) => version.as_i64().unwrap_or(0),
            None => 0,
        },
        None => 0,
    }
}

/// The text of the document that is opened.
pub(crate) fn opened_text(params: &Value) -> Option<&str> {
    params.get("textDocument")?.get("text")?.as_str()
}

/// The text that the last of a document's changes puts in its place. A change of a part of a document isn't one that this server has asked for.
pub(crate) fn changed_text(params: &Value) -> Option<&str> {
    let change = params.get("contentChanges")?.as_array()?.last()?;
    match change.get("range") {
        Some(_) => None,
        None => change.get("text")?.as_str(),
    }
}
