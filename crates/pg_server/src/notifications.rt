//! What the server is told.
ghost use Rattle.std.specs.Prelude.{IfOk};
ghost use Rattle.pg_server.specs.Answers.{AnswersNothing};

use crate::params::{changed_text, opened_text, uri_of, version_of};
use crate::published::published;
use crate::reaction::Reaction;
use crate::server::{Server, Stage};
use pg_server_documents::Document;
use serde_json::Value;
use std::alloc::{AllocError, Global};

/// The exit status after `exit`, where `shutdown` came before it.
const DONE: u8 = 0;

/// The exit status after `exit` without `shutdown`.
const TOO_SOON: u8 = 1;

impl Server {
    /// What a notification with this method brings about. One that isn't known is passed over, and so is one before `initialize`.
    pub(crate) fn told(
        &mut self,
        alloc: Global,
        method: &str,
        params: &Value,
    ) -> Result<Reaction, AllocError>
        ensures { IfOk result AnswersNothing }
    {
        if method == "exit" {
            return Ok(Reaction::Ends(self.exit_status()));
        }
        if self.stage != Stage::Running {
            return Ok(Reaction::Nothing);
        }
        match method {
            "textDocument/didOpen" => self.opened(alloc, params),
            "textDocument/didChange" => self.changed(alloc, params),
            "textDocument/didClose" => self.closed(alloc, params),
            _ => Ok(Reaction::Nothing),
        }
    }

    fn exit_status(&self) -> u8 {
        match self.stage {
            Stage::ShutDown => DONE,
            Stage::New | Stage::Running => TOO_SOON,
        }
    }

    /// Keeps a document that was opened.
    fn opened(&mut self, alloc: Global, params: &Value) -> Result<Reaction, AllocError>
        ensures { IfOk result AnswersNothing }
    {
        if let (Some(uri), Some(text)) = (uri_of(params), opened_text(params)) {
            let document = untold(alloc, version_of(params), text)?;
            self.put(alloc, uri, document)?;
        }
        Ok(Reaction::Nothing)
    }

    /// Keeps a document under a URI.
    fn put(&mut self, alloc: Global, uri: &str, document: Document) -> Result<(), AllocError> {
        match String::from_str(alloc, uri) {
            Ok(uri) => self.documents.put(uri, document),
            Err(error) => Err(error),
        }
    }

    /// Keeps the new state of a document. A change of a document that isn't open is passed over.
    fn changed(&mut self, alloc: Global, params: &Value) -> Result<Reaction, AllocError>
        ensures { IfOk result AnswersNothing }
    {
        if let (Some(uri), Some(text)) = (uri_of(params), changed_text(params)) {
            let document = untold(alloc, version_of(params), text)?;
            self.documents.change(uri, document);
        }
        Ok(Reaction::Nothing)
    }

    /// Forgets a document, and takes its diagnostics back.
    fn closed(&mut self, alloc: Global, params: &Value) -> Result<Reaction, AllocError>
        ensures { IfOk result AnswersNothing }
    {
        match uri_of(params) {
            Some(uri) => self.close(alloc, uri),
            None => Ok(Reaction::Nothing),
        }
    }

    fn close(&mut self, alloc: Global, uri: &str) -> Result<Reaction, AllocError>
        ensures { IfOk result AnswersNothing }
    {
        if self.documents.close(uri) {
            let none = Value::Array(Vec::new(alloc));
            let out = published(alloc, uri, None, none)?;
            Ok(Reaction::Says(out))
        } else {
            Ok(Reaction::Nothing)
        }
    }
}

/// A state of a document of which the client hasn't been told.
fn untold(alloc: Global, version: i64, text: &str) -> Result<Document, AllocError> {
    let text = String::from_str(alloc, text)?;
    Ok(Document {
        version,
        text,
        is_told: false,
    })
}
