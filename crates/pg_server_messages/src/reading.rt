//! From the body of a message to what it says.

use crate::framing::read_body;
use crate::message::{Id, Message};
use crate::message_fault::MessageFault;
use serde_json::{Error, Map, Value};
use std::alloc::Global;
use std::io::Read;

/// The next message; `None` if the input ends between messages. Fails as `read_body` does, and with `NotJson` and `NotAMessage`.
pub fn read_message<R: Read>(
    alloc: Global,
    reader: &mut R,
) -> Result<Option<Message>, MessageFault> {
    match read_body(alloc, reader)? {
        Some(body) => {
            let message = message_of(alloc, body.as_slice())?;
            Ok(Some(message))
        }
        None => Ok(None),
    }
}

/// The message that a body spells. Fails with `NotJson` and `NotAMessage`, and where memory runs out.
pub fn message_of(alloc: Global, body: &[u8]) -> Result<Message, MessageFault> {
    match Value::from_slice(alloc, body) {
        Ok(value) => of_value(value),
        Err(error) => Err(fault_of(&error)),
    }
}

/// Why a body couldn't be read.
fn fault_of(error: &Error) -> MessageFault {
    if error.is_memory() {
        MessageFault::Memory
    } else {
        MessageFault::NotJson
    }
}

/// The message that a value spells.
fn of_value(value: Value) -> Result<Message, MessageFault> {
    match value {
        Value::Object(members) => of_members(members),
        Value::Null | Value::Bool(_) | Value::Number(_) => Err(MessageFault::NotAMessage),
        Value::String(_text) => Err(MessageFault::NotAMessage),
        Value::Array(_items) => Err(MessageFault::NotAMessage),
    }
}

/// The message with these members.
fn of_members(members: Map<String, Value>) -> Result<Message, MessageFault> {
    let is_message = match members.get("jsonrpc") {
        Some(Value::String(version)) => version.as_str() == "2.0",
        _ => false,
    };
    if is_message {
        Ok(told(members))
    } else {
        Err(MessageFault::NotAMessage)
    }
}

/// What an object of JSON-RPC says.
fn told(members: Map<String, Value>) -> Message {
    let mut members = members;
    let id = members.remove("id");
    let method = members.remove("method");
    let params = members.remove("params");
    drop(members);
    match method {
        Some(Value::String(method)) => asked(id, method, params.unwrap_or(Value::Null)),
        Some(_other) => invalid(id),
        None => answered(id),
    }
}

/// What an object with a method says.
fn asked(id: Option<Value>, method: String, params: Value) -> Message {
    match id {
        None => Message::Notification { method, params },
        Some(id) => requested(id_of(id), method, params),
    }
}

/// What an object with a method and a member `id` says. `None` stands for an id that can be none.
fn requested(id: Option<Id>, method: String, params: Value) -> Message {
    match id {
        Some(id) => Message::Request { id, method, params },
        None => Message::Invalid { id: None },
    }
}

/// What an object says whose method isn't a text.
fn invalid(id: Option<Value>) -> Message {
    Message::Invalid {
        id: match id {
            Some(id) => id_of(id),
            None => None,
        },
    }
}

/// What an object without a method says.
fn answered(id: Option<Value>) -> Message {
    match id {
        Some(_id) => Message::Response,
        None => Message::Invalid { id: None },
    }
}

/// The id that a value stands for: a number or a text.
fn id_of(value: Value) -> Option<Id> {
    match value {
        Value::Number(number) => Some(Id::Number(number)),
        Value::String(text) => Some(Id::Text(text)),
        Value::Null | Value::Bool(_) => None,
        Value::Array(_items) => None,
        Value::Object(_members) => None,
    }
}
