//! Questions about documents, and what comes of them.

use pg_server_messages::ErrorCode;
use pg_server_positions::Encoding;
use serde_json::Value;

/// What can be asked about a document, a method of the protocol each.
#[derive(Clone, Copy, Debug, PartialEq, Eq)]
pub enum Question {
    /// Where the name at a position is defined.
    Definition,
    /// Where the name at a position is used.
    References,
    /// Whether the name at a position can get another one.
    PrepareRename,
    /// The edits that give another name to what has the name at a position.
    Rename,
    /// The items of the document.
    Symbols,
    /// What can be written at a position.
    Completion,
    /// The form whose parentheses are open around a position.
    Signature,
    /// What is said of the rule or the form at a position.
    Hover,
    /// Changes that cure the findings in a range, each tried. This takes long.
    Changes,
}

/// A document that is asked about.
#[derive(Clone, Copy)]
pub struct Document<'d> {
    pub uri: &'d str,
    pub text: &'d str,
    /// What the units of positions are.
    pub encoding: Encoding,
}

/// What comes of a question.
#[derive(Drop)]
pub enum Answer {
    /// The protocol's result.
    Granted(Value),
    /// Why there is none, in words.
    Refused(ErrorCode, &'static str),
}
