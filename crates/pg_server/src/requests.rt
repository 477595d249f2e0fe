//! What can be asked about documents.

use crate::outcome::{Outcome, refusal};
use crate::params::uri_of;
use crate::server::Server;
use pg_pred::Registry;
use pg_server_answers::{Answer, Document, Question, answer_to};
use pg_server_messages::ErrorCode;
use serde_json::Value;
use std::alloc::{AllocError, Global};

impl Server {
    /// What comes of a request about a document. A line for each method that there is; what it can do is told in `capabilities` of `session`, too.
    pub(crate) fn asked(
        &self,
        alloc: Global,
        registry: &Registry,
        method: &str,
        params: &Value,
    ) -> Result<Outcome, AllocError> {
        let question = match method {
            "textDocument/definition" => Question::Definition,
            "textDocument/references" => Question::References,
            "textDocument/prepareRename" => Question::PrepareRename,
            "textDocument/rename" => Question::Rename,
            "textDocument/documentSymbol" => Question::Symbols,
            "textDocument/completion" => Question::Completion,
            "textDocument/signatureHelp" => Question::Signature,
            "textDocument/hover" => Question::Hover,
            "textDocument/codeAction" => Question::Changes,
            _ => return no_method(alloc, method),
        };
        self.answered(alloc, registry, question, params)
    }

    /// What comes of a question about the document that the parameters name.
    fn answered(
        &self,
        alloc: Global,
        registry: &Registry,
        question: Question,
        params: &Value,
    ) -> Result<Outcome, AllocError> {
        let Some(uri) = uri_of(params) else {
            return refusal(
                alloc,
                ErrorCode::InvalidParams,
                "the parameters name no document",
            );
        };
        let Some(document) = self.documents.get(uri) else {
            return refusal(alloc, ErrorCode::InvalidParams, "the document isn't open");
        };
        let document = Document {
            uri,
            text: document.text.as_str(),
            encoding: self.encoding,
        };
        outcome_of(
            alloc,
            answer_to(alloc, registry, document, question, params)?,
        )
    }
}

/// The outcome that an answer is.
fn outcome_of(alloc: Global, answer: Answer) -> Result<Outcome, AllocError> {
    match answer {
        Answer::Granted(result) => Ok(Outcome::Granted(result)),
        Answer::Refused(code, words) => refusal(alloc, code, words),
    }
}

fn no_method(alloc: Global, method: &str) -> Result<Outcome, AllocError> {
    let words = format!(in alloc; "there is no method {method}")?;
    Ok(Outcome::Refused(ErrorCode::MethodNotFound, words))
}
