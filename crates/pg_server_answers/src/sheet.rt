//! A document with its characters, and how its places are written.

use crate::asking::Document;
use pg_file_items::Span;
use pg_server_positions::{Position, place_of};
use serde_json::{Map, Value, json, put};
use std::alloc::{AllocError, Global};

/// The most characters of a text whose positions are worked out.
pub(crate) const MOST: usize = (1 << 28) - 1;

/// A document with its characters, and the position of each place.
#[derive(Clone, Copy)]
pub(crate) struct Sheet<'s> {
    pub(crate) document: Document<'s>,
    pub(crate) text: &'s [char],
    pub(crate) positions: &'s [Position],
}

impl Sheet<'_> {
    /// The place of a position.
    pub(crate) fn place(self, position: Position) -> usize {
        if self.text.len() <= MOST {
            place_of(self.text, self.document.encoding, position)
        } else {
            0
        }
    }

    /// The range of these characters.
    pub(crate) fn range(self, alloc: Global, span: Span) -> Result<Value, AllocError> {
        let start = position_value(alloc, self.position(span.first))?;
        let end = position_value(alloc, self.position(span.after))?;
        json!(in alloc; {"start": start, "end": end})
    }

    /// The position of a place; that of the end for one past it.
    fn position(self, place: usize) -> Position {
        match self.positions.get(place) {
            Some(position) => *position,
            None => match self.positions.last() {
                Some(position) => *position,
                None => Position { line: 0, unit: 0 },
            },
        }
    }

    /// An edit that puts a text in the place of these characters.
    pub(crate) fn edit(self, alloc: Global, span: Span, text: &str) -> Result<Value, AllocError> {
        let range = self.range(alloc, span)?;
        json!(in alloc; {"range": range, "newText": text})
    }

    /// Edits of the document and of no other one.
    pub(crate) fn workspace_edit(self, alloc: Global, edits: Value) -> Result<Value, AllocError> {
        let mut changes = Map::new(alloc);
        put(&mut changes, alloc, self.document.uri, edits)?;
        let changes = Value::Object(changes);
        json!(in alloc; {"changes": changes})
    }
}

fn position_value(alloc: Global, position: Position) -> Result<Value, AllocError> {
    let line = Value::from(position.line);
    let unit = Value::from(position.unit);
    json!(in alloc; {"line": line, "character": unit})
}
