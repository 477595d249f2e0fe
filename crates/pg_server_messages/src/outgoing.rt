//! Messages that go out.

use crate::error_code::ErrorCode;
use crate::message::Id;
use serde_json::{Value, json};
use std::alloc::{AllocError, Global};

/// A message of the server.
#[derive(Drop)]
pub enum Outgoing {
    /// The answer to the request with this id.
    Answer {
        id: Id,
        result: Value,
    },
    /// The refusal of the request with this id, or of a message that has none.
    Refusal {
        id: Option<Id>,
        code: ErrorCode,
        words: String,
    },
    /// What the client is told without having asked.
    Notification {
        method: &'static str,
        params: Value,
    },
}

/// The object of JSON-RPC that says it.
pub(crate) fn object_of(alloc: Global, outgoing: Outgoing) -> Result<Value, AllocError> {
    match outgoing {
        Outgoing::Answer { id, result } => {
            let id = id_value(Some(id));
            json!(in alloc; {"jsonrpc": "2.0", "id": id, "result": result})
        }
        Outgoing::Refusal { id, code, words } => {
            let id = id_value(id);
            let code = code.number();
            json!(in alloc; {"jsonrpc": "2.0", "id": id, "error": {"code": code, "message": words}})
        }
        Outgoing::Notification { method, params } => {
            json!(in alloc; {"jsonrpc": "2.0", "method": method, "params": params})
        }
    }
}

/// The value of an id, `null` for none.
fn id_value(id: Option<Id>) -> Value {
    match id {
        Some(Id::Number(number)) => Value::Number(number),
        Some(Id::Text(text)) => Value::String(text),
        None => Value::Null,
    }
}
