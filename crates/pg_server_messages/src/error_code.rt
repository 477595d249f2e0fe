//! The protocol's errors.

/// Why a request is refused: the codes of JSON-RPC, and those of the protocol that this server answers.
#[derive(Clone, Copy, Debug, Drop, PartialEq, Eq)]
pub enum ErrorCode {
    /// The body isn't JSON.
    ParseError,
    /// The message isn't a request, or none that can be asked now.
    InvalidRequest,
    /// There is no such method.
    MethodNotFound,
    /// The parameters aren't those of the method.
    InvalidParams,
    /// The server failed.
    InternalError,
    /// The client hasn't sent `initialize` yet.
    ServerNotInitialized,
    /// The document was changed while its request was waiting.
    ContentModified,
    /// The request is a right one, but can't be granted.
    RequestFailed,
}

impl ErrorCode {
    /// The number that stands for it in messages.
    pub fn number(self) -> i64 {
        match self {
            ErrorCode::ParseError => -32700,
            ErrorCode::InvalidRequest => -32600,
            ErrorCode::MethodNotFound => -32601,
            ErrorCode::InvalidParams => -32602,
            ErrorCode::InternalError => -32603,
            ErrorCode::ServerNotInitialized => -32002,
            ErrorCode::ContentModified => -32801,
            ErrorCode::RequestFailed => -32803,
        }
    }
}
