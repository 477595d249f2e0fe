//! Messages that come in.

use serde_json::{Number, Value};

/// The number or text by which a client knows the answer to its request.
#[derive(Drop)]
pub enum Id {
    Number(Number),
    Text(String),
}

/// A message of a client. Parameters that aren't there are `null`.
#[derive(Drop)]
pub enum Message {
    /// It wants one answer, with this id.
    Request {
        id: Id,
        method: String,
        params: Value,
    },
    /// It wants no answer.
    Notification {
        method: String,
        params: Value,
    },
    /// It answers a request of the server. This server sends none, so what it says is dropped.
    Response,
    /// It is none of the three: a member has the wrong type. It is to be refused, by its id if it has one.
    Invalid {
        id: Option<Id>,
    },
}
