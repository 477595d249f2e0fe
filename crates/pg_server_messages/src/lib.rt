//! Messages of the Language Server Protocol: read from bytes, and written.
//!
//! A message is a header that tells how many bytes follow, and a body of JSON (`framing`, `header`). `reading` makes a typed [`Message`] of a body, and
//! `writing` the bytes of what goes out. Nothing here knows what a method means.
#![tactic(auto)]

mod error_code;
mod framing;
mod header;
mod message;
mod message_fault;
mod outgoing;
mod reading;
mod writing;

pub use error_code::ErrorCode;
pub use framing::{BODY_LIMIT, HEADER_LIMIT, read_body};
pub use message::{Id, Message};
pub use message_fault::MessageFault;
pub use outgoing::Outgoing;
pub use reading::{message_of, read_message};
pub use writing::{WritingFault, write_body, write_message};
