//! Why bytes are no message.

use thiserror::Error;

/// Why no message could be read. After each of them the reader stands somewhere within its input, so no message can be read any more.
#[derive(Clone, Copy, Debug, Drop, PartialEq, Eq, Error)]
pub enum MessageFault {
    /// The reader answered an error.
    #[error("cannot read")]
    Reader,
    /// The input ends within a message.
    #[error("the input ends within a message")]
    CutShort,
    /// The header is longer than `HEADER_LIMIT`, or its body would be longer than `BODY_LIMIT`.
    #[error("a message is too long")]
    TooLong,
    /// The header isn't made of lines of a name, a colon and a value, or doesn't say how long the body is, or says it twice.
    #[error("a header is not one of the protocol")]
    BadHeader,
    /// The body isn't JSON in UTF-8.
    #[error("the body of a message is not JSON")]
    NotJson,
    /// The body isn't an object with the member `"jsonrpc":"2.0"`.
    #[error("the body of a message is not an object of JSON-RPC 2.0")]
    NotAMessage,
    /// Memory ran out.
    #[error("out of memory")]
    Memory,
}
