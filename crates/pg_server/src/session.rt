//! The beginning of a session: what client and server tell each other of themselves.

use crate::outcome::Outcome;
use crate::server::{Server, Stage};
use pg_server_positions::Encoding;
use serde_json::{Value, json};
use std::alloc::{AllocError, Global};

/// How documents are sent that were changed: whole.
const WHOLE: u64 = 1;

impl Server {
    /// Begins the session, and says what the server can do.
    pub(crate) fn initialize(
        &mut self,
        alloc: Global,
        params: &Value,
    ) -> Result<Outcome, AllocError> {
        self.encoding = encoding_of(params);
        self.pages = pages_of(alloc, params)?;
        self.stage = Stage::Running;
        let result = self.told_of_itself(alloc)?;
        Ok(Outcome::Granted(result))
    }

    /// What the server tells of itself. The encoding is told as the protocol has it since 3.17, and as clients had it before.
    fn told_of_itself(&self, alloc: Global) -> Result<Value, AllocError> {
        let encoding = name_of(self.encoding);
        let capabilities = capabilities(alloc, encoding)?;
        let version = self.version;
        json!(in alloc; {
            "capabilities": capabilities,
            "offsetEncoding": encoding,
            "serverInfo": {"name": "pgw", "version": version}
        })
    }
}

/// What the server can do.
fn capabilities(alloc: Global, encoding: &str) -> Result<Value, AllocError> {
    let change = Value::from(WHOLE);
    json!(in alloc; {
        "positionEncoding": encoding,
        "textDocumentSync": {"openClose": true, "change": change},
        "completionProvider": {},
        "signatureHelpProvider": {"triggerCharacters": ["(", ","]},
        "hoverProvider": true,
        "definitionProvider": true,
        "referencesProvider": true,
        "renameProvider": {"prepareProvider": true},
        "documentSymbolProvider": true,
        "codeActionProvider": {"codeActionKinds": ["quickfix"]}
    })
}

/// What the units of positions are, by what the client can count: UTF-8 if it prefers it, else UTF-16, which each client can.
fn encoding_of(params: &Value) -> Encoding {
    match preferred(params) {
        Some("utf-8") => Encoding::Utf8,
        Some(_) | None => Encoding::Utf16,
    }
}

/// The first encoding that the client names and that this server knows.
fn preferred(params: &Value) -> Option<&str> {
    let capabilities = params.get("capabilities")?;
    let named = match capabilities.get("general") {
        Some(general) => general.get("positionEncodings"),
        None => capabilities.get("offsetEncoding"),
    };
    for name in named?.as_array()? {
        match name.as_str() {
            Some("utf-8") => return Some("utf-8"),
            Some("utf-16") => return Some("utf-16"),
            Some(_) | None => {}
        }
    }
    None
}

/// The protocol's name of an encoding.
fn name_of(encoding: Encoding) -> &'static str {
    match encoding {
        Encoding::Utf8 => "utf-8",
        Encoding::Utf16 => "utf-16",
    }
}

/// The URI of the folder with the pages of codes, which the client may give as an option.
fn pages_of(alloc: Global, params: &Value) -> Result<Option<String>, AllocError> {
    match params.pointer("/initializationOptions/pages") {
        Some(Value::String(pages)) => Ok(Some(String::from_str(alloc, pages.as_str())?)),
        Some(_) | None => Ok(None),
    }
}
