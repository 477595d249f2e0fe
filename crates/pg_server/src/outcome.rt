//! What comes of a request.
ghost use Rattle.pg_server.specs.Answers.{IsAnswerTo};

use pg_server_messages::{ErrorCode, Id, Outgoing};
use serde_json::Value;
use std::alloc::{AllocError, Global};

/// What comes of a request: a result, or why there is none.
#[derive(Drop)]
pub(crate) enum Outcome {
    Granted(Value),
    Refused(ErrorCode, String),
}

/// A refusal in these words.
pub(crate) fn refusal(alloc: Global, code: ErrorCode, words: &str) -> Result<Outcome, AllocError> {
    let words = String::from_str(alloc, words)?;
    Ok(Outcome::Refused(code, words))
}

/// The message that says to the request with this id what comes of it.
pub(crate) fn said(id: Id, outcome: Outcome) -> Outgoing
    ensures { IsAnswerTo id result }
{
    match outcome {
        Outcome::Granted(result) => Outgoing::Answer { id, result },
        Outcome::Refused(code, words) => Outgoing::Refusal {
            id: Some(id),
            code,
            words,
        },
    }
}
