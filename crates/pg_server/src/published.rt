//! Diagnostics as the protocol has them.
ghost use Rattle.std.specs.Prelude.{◌^◌, ◌<◌, length, IfOk};
ghost use Rattle.pg_server.specs.Answers.{IsNoAnswer};

use crate::server::Server;
use pg_pred::Registry;
use pg_server_diagnostics::{Diagnostic, Other, Severity, diagnostics_of, page_of};
use pg_server_documents::Document;
use pg_server_messages::Outgoing;
use pg_server_positions::{Position, positions_of};
use pg_text::characters_of;
use serde_json::{Value, json};
use std::alloc::{AllocError, Global};

/// The most characters of a text whose positions are worked out.
const MOST: usize = (1 << 28) - 1;

/// What is the same for all diagnostics of a document.
#[derive(Clone, Copy)]
struct Sheet<'u, 'p, 'g> {
    uri: &'u str,
    positions: &'p [Position],
    pages: Option<&'g str>,
}

impl Server {
    /// The diagnostics of the first document of which the client wasn't told yet, as a message; `None` if it was told of all. Fails where memory runs out.
    pub fn publish(
        &mut self,
        alloc: Global,
        registry: &Registry,
    ) -> Result<Option<Outgoing>, AllocError> {
        let Some((uri, document)) = self.documents.first_untold() else {
            return Ok(None);
        };
        let uri = String::from_str(alloc, uri)?;
        let out = self.told_of(alloc, uri.as_str(), document, registry);
        self.documents.note_told(uri.as_str());
        drop(uri);
        Ok(Some(out?))
    }

    /// The message with the diagnostics of a document.
    fn told_of(
        &self,
        alloc: Global,
        uri: &str,
        document: &Document,
        registry: &Registry,
    ) -> Result<Outgoing, AllocError> {
        let found = diagnostics_of(alloc, document.text.as_str(), registry)?;
        let listed = self.listed(alloc, uri, document.text.as_str(), found.as_slice());
        drop(found);
        published(alloc, uri, Some(document.version), listed?)
    }

    /// The list of diagnostics of a document with this text.
    fn listed(
        &self,
        alloc: Global,
        uri: &str,
        text: &str,
        found: &[Diagnostic],
    ) -> Result<Value, AllocError> {
        if found.is_empty() {
            return Ok(Value::Array(Vec::new(alloc)));
        }
        let characters = characters_of(alloc, text)?;
        let positions = positions_of(alloc, counted(characters.as_slice()), self.encoding)?;
        drop(characters);
        let sheet = Sheet {
            uri,
            positions: positions.as_slice(),
            pages: match &self.pages {
                Some(pages) => Some(pages.as_str()),
                None => None,
            },
        };
        all_values(alloc, sheet, found)
    }
}

/// The text, if its positions can be worked out. No message has one that is longer.
fn counted(text: &[char]) -> &[char]
    ensures { length result.now < 2 ^ 28 }
{
    if text.len() <= MOST { text } else { &text[..0] }
}

/// The message that diagnostics of a document are these.
pub(crate) fn published(
    alloc: Global,
    uri: &str,
    version: Option<i64>,
    diagnostics: Value,
) -> Result<Outgoing, AllocError>
    ensures { IfOk result IsNoAnswer }
{
    let version = match version {
        Some(version) => Value::from(version),
        None => Value::Null,
    };
    let params = json!(in alloc; {"uri": uri, "version": version, "diagnostics": diagnostics})?;
    Ok(Outgoing::Notification {
        method: "textDocument/publishDiagnostics",
        params,
    })
}

/// The values of diagnostics.
fn all_values(alloc: Global, sheet: Sheet, found: &[Diagnostic]) -> Result<Value, AllocError> {
    let mut values = Vec::new(alloc);
    for diagnostic in found {
        values.push(value_of(alloc, sheet, diagnostic)?)?;
    }
    Ok(Value::Array(values))
}

/// The value of a diagnostic.
fn value_of(alloc: Global, sheet: Sheet, diagnostic: &Diagnostic) -> Result<Value, AllocError> {
    let range = range_of(alloc, sheet, diagnostic.span.first, diagnostic.span.after)?;
    let severity = Value::from(severity_of(diagnostic.severity));
    let message = diagnostic.message.as_str();
    let mut value = json!(in alloc; {
        "range": range,
        "severity": severity,
        "source": "pgw",
        "message": message
    })?;
    if let Some(code) = diagnostic.code {
        put_code(alloc, &mut value, sheet, code)?;
    }
    if !diagnostic.others.is_empty() {
        put_others(alloc, &mut value, sheet, diagnostic.others.as_slice())?;
    }
    Ok(value)
}

/// Puts the code into the value of a diagnostic, and where its page is.
fn put_code(alloc: Global, value: &mut Value, sheet: Sheet, code: &str) -> Result<(), AllocError> {
    let text = String::from_str(alloc, code)?;
    put(alloc, value, "code", Value::String(text))?;
    if let (Some(pages), Some(page)) = (sheet.pages, page_of(code)) {
        let href = format!(in alloc; "{pages}{page}")?;
        let description = json!(in alloc; {"href": href})?;
        put(alloc, value, "codeDescription", description)?;
    }
    Ok(())
}

/// Puts the other places into the value of a diagnostic.
fn put_others(
    alloc: Global,
    value: &mut Value,
    sheet: Sheet,
    others: &[Other],
) -> Result<(), AllocError> {
    let mut values = Vec::new(alloc);
    for other in others {
        values.push(other_value(alloc, sheet, other)?)?;
    }
    put(alloc, value, "relatedInformation", Value::Array(values))
}

/// The value of another place.
fn other_value(alloc: Global, sheet: Sheet, other: &Other) -> Result<Value, AllocError> {
    let range = range_of(alloc, sheet, other.span.first, other.span.after)?;
    let uri = sheet.uri;
    let words = other.words.as_str();
    json!(in alloc; {"location": {"uri": uri, "range": range}, "message": words})
}

/// Puts a member into an object.
fn put(alloc: Global, value: &mut Value, key: &str, member: Value) -> Result<(), AllocError> {
    if let Value::Object(members) = value {
        let key = String::from_str(alloc, key)?;
        members.insert(key, member)?;
    }
    Ok(())
}

/// The range of these characters.
fn range_of(alloc: Global, sheet: Sheet, first: usize, after: usize) -> Result<Value, AllocError> {
    let start = position_value(alloc, position_at(sheet.positions, first))?;
    let end = position_value(alloc, position_at(sheet.positions, after))?;
    json!(in alloc; {"start": start, "end": end})
}

fn position_value(alloc: Global, position: Position) -> Result<Value, AllocError> {
    let line = Value::from(position.line);
    let unit = Value::from(position.unit);
    json!(in alloc; {"line": line, "character": unit})
}

/// The position of a place; that of the end for one past it.
fn position_at(positions: &[Position], place: usize) -> Position {
    match positions.get(place) {
        Some(position) => *position,
        None => match positions.last() {
            Some(position) => *position,
            None => Position { line: 0, unit: 0 },
        },
    }
}

/// The protocol's number of a severity.
fn severity_of(severity: Severity) -> u64 {
    match severity {
        Severity::Error => 1,
        Severity::Hint => 4,
    }
}
