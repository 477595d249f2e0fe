//! The server's state, and what it does with a message.
ghost use Rattle.std.specs.Prelude.{IfOk};
ghost use Rattle.pg_server.specs.Answers.{AnswersNothing, AnswersTo, Refuses, Suits};

use crate::outcome::{Outcome, refusal, said};
use crate::reaction::Reaction;
use pg_pred::Registry;
use pg_server_documents::Documents;
use pg_server_messages::{ErrorCode, Id, Message, Outgoing};
use pg_server_positions::Encoding;
use serde_json::Value;
use std::alloc::{AllocError, Global};

/// How far a session is.
#[derive(Clone, Copy, Debug, PartialEq, Eq)]
pub(crate) enum Stage {
    /// The client hasn't sent `initialize` yet.
    New,
    /// Between `initialize` and `shutdown`.
    Running,
    /// The client has sent `shutdown`.
    ShutDown,
}

/// What the server knows.
#[derive(Drop)]
pub struct Server {
    pub(crate) documents: Documents,
    /// What the units of positions are.
    pub(crate) encoding: Encoding,
    pub(crate) stage: Stage,
    /// The URI of the folder with the pages of codes, if the client has given one.
    pub(crate) pages: Option<String>,
    /// The program's version.
    pub(crate) version: &'static str,
}

impl Server {
    /// A server that has seen no message, of a program with this version. It takes no memory.
    pub fn new(alloc: Global, version: &'static str) -> Server {
        Server {
            documents: Documents::new(alloc),
            encoding: Encoding::Utf16,
            stage: Stage::New,
            pages: None,
            version,
        }
    }

    /// What a message brings about (the protocol's, 3.17). A request is answered or refused once, with its id; nothing else is ever answered, but for what
    /// is no message, which is refused. The registry has the predicates and builders that a document may name. Fails where memory runs out.
    pub fn handle(
        &mut self,
        alloc: Global,
        registry: &Registry,
        message: Message,
    ) -> Result<Reaction, AllocError>
        ensures { IfOk result (Suits message) }
    {
        match message {
            Message::Request { id, method, params } => {
                self.requested(alloc, registry, id, method, params)
            }
            Message::Notification { method, params } => self.notified(alloc, method, params),
            Message::Response => Ok(Reaction::Nothing),
            Message::Invalid { id } => invalid(alloc, id),
        }
    }

    /// What a request brings about.
    fn requested(
        &mut self,
        alloc: Global,
        registry: &Registry,
        id: Id,
        method: String,
        params: Value,
    ) -> Result<Reaction, AllocError>
        ensures { IfOk result (AnswersTo id) }
    {
        let outcome = self.outcome(alloc, registry, method.as_str(), &params);
        drop(method);
        drop(params);
        match outcome {
            Ok(outcome) => Ok(Reaction::Says(said(id, outcome))),
            Err(error) => Err(error),
        }
    }

    /// What comes of a request with this method.
    fn outcome(
        &mut self,
        alloc: Global,
        registry: &Registry,
        method: &str,
        params: &Value,
    ) -> Result<Outcome, AllocError> {
        match self.stage {
            Stage::New => self.first_outcome(alloc, method, params),
            Stage::Running => self.running_outcome(alloc, registry, method, params),
            Stage::ShutDown => refusal(alloc, ErrorCode::InvalidRequest, "the server is shut down"),
        }
    }

    /// What comes of a request before `initialize`.
    fn first_outcome(
        &mut self,
        alloc: Global,
        method: &str,
        params: &Value,
    ) -> Result<Outcome, AllocError> {
        if method == "initialize" {
            self.initialize(alloc, params)
        } else {
            let words = "the first request has to be initialize";
            refusal(alloc, ErrorCode::ServerNotInitialized, words)
        }
    }

    /// What comes of a request between `initialize` and `shutdown`.
    fn running_outcome(
        &mut self,
        alloc: Global,
        registry: &Registry,
        method: &str,
        params: &Value,
    ) -> Result<Outcome, AllocError> {
        match method {
            "shutdown" => {
                self.stage = Stage::ShutDown;
                Ok(Outcome::Granted(Value::Null))
            }
            "initialize" => {
                let words = "the server is initialized already";
                refusal(alloc, ErrorCode::InvalidRequest, words)
            }
            _ => self.asked(alloc, registry, method, params),
        }
    }

    /// What a notification brings about.
    fn notified(
        &mut self,
        alloc: Global,
        method: String,
        params: Value,
    ) -> Result<Reaction, AllocError>
        ensures { IfOk result AnswersNothing }
    {
        let reaction = self.told(alloc, method.as_str(), &params);
        drop(method);
        drop(params);
        reaction
    }
}

/// The refusal of what is no message.
fn invalid(alloc: Global, id: Option<Id>) -> Result<Reaction, AllocError>
    ensures { IfOk result (Refuses id) }
{
    match String::from_str(alloc, "not a request and not a notification") {
        Ok(words) => Ok(Reaction::Says(Outgoing::Refusal {
            id,
            code: ErrorCode::InvalidRequest,
            words,
        })),
        Err(error) => Err(error),
    }
}
