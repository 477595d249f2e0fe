//! The server's loop over a reader and a writer.

use crate::reaction::Reaction;
use crate::server::Server;
use pg_pred::Registry;
use pg_server_messages::{
    ErrorCode, MessageFault, Outgoing, WritingFault, read_message, write_message,
};
use std::alloc::{AllocError, Global};
use std::io::{BufReader, Read, Write};

/// After how many messages the client is told of its documents, though more messages have been read already.
const PATIENCE: usize = 64;

/// How a session ended.
#[derive(Clone, Copy, Debug, Drop, PartialEq, Eq)]
pub enum Ended {
    /// The client has sent `exit`; the exit status is 0, or 1 without `shutdown` before it.
    Exit(u8),
    /// The input ended between messages, without `exit`.
    NoExit,
    /// Bytes were no message, or the reader failed.
    Fault(MessageFault),
    /// The writer failed.
    Writer,
}

/// Reads messages and says what there is to say to each, until the client ends the session, its input ends or is no message, or the writer fails (the
/// protocol's, 3.17). Diagnostics of a document are made when no further message has been read yet, so only its newest state has any. Fails where memory runs
/// out.
pub fn serve<R: Read, W: Write>(
    alloc: Global,
    server: &mut Server,
    registry: &Registry,
    reader: &mut BufReader<R>,
    writer: &mut W,
) -> Result<Ended, AllocError> {
    let mut waited: usize = 0;
    for _ in 0..u64::MAX {
        if let Some(ended) = turn(alloc, server, registry, reader, writer)? {
            return Ok(ended);
        }
        waited = waited.saturating_add(1);
        if reader.buffer().is_empty() || waited > PATIENCE {
            waited = 0;
            if let Some(ended) = publish_all(alloc, server, registry, writer)? {
                return Ok(ended);
            }
        }
    }
    Ok(Ended::NoExit)
}

/// Reads a message and says what there is to say to it. `None` if the session goes on.
fn turn<R: Read, W: Write>(
    alloc: Global,
    server: &mut Server,
    registry: &Registry,
    reader: &mut BufReader<R>,
    writer: &mut W,
) -> Result<Option<Ended>, AllocError> {
    match read_message(alloc, reader) {
        Ok(Some(message)) => {
            let reaction = server.handle(alloc, registry, message)?;
            react(alloc, reaction, writer)
        }
        Ok(None) => Ok(Some(Ended::NoExit)),
        Err(fault) => give_up(alloc, fault, writer),
    }
}

/// Says what is to be said, or ends.
fn react<W: Write>(
    alloc: Global,
    reaction: Reaction,
    writer: &mut W,
) -> Result<Option<Ended>, AllocError> {
    match reaction {
        Reaction::Nothing => Ok(None),
        Reaction::Says(out) => say(alloc, out, writer),
        Reaction::Ends(status) => Ok(Some(Ended::Exit(status))),
    }
}

/// Says what a message is to say. Ends if the writer fails.
fn say<W: Write>(
    alloc: Global,
    out: Outgoing,
    writer: &mut W,
) -> Result<Option<Ended>, AllocError> {
    match write_message(alloc, out, writer) {
        Ok(()) => Ok(None),
        Err(WritingFault::Writer) => Ok(Some(Ended::Writer)),
        Err(WritingFault::Memory) => Err(AllocError),
    }
}

/// Ends with a fault, and refuses a body that is no message first.
fn give_up<W: Write>(
    alloc: Global,
    fault: MessageFault,
    writer: &mut W,
) -> Result<Option<Ended>, AllocError> {
    let code = match fault {
        MessageFault::NotJson => ErrorCode::ParseError,
        MessageFault::NotAMessage => ErrorCode::InvalidRequest,
        MessageFault::Memory => return Err(AllocError),
        MessageFault::Reader
        | MessageFault::CutShort
        | MessageFault::TooLong
        | MessageFault::BadHeader => return Ok(Some(Ended::Fault(fault))),
    };
    let words = format!(in alloc; "{fault}")?;
    let out = Outgoing::Refusal {
        id: None,
        code,
        words,
    };
    say(alloc, out, writer)?;
    Ok(Some(Ended::Fault(fault)))
}

/// Tells the client of all documents of which it wasn't told yet.
fn publish_all<W: Write>(
    alloc: Global,
    server: &mut Server,
    registry: &Registry,
    writer: &mut W,
) -> Result<Option<Ended>, AllocError> {
    for _ in 0..u64::MAX {
        let Some(out) = server.publish(alloc, registry)? else {
            break;
        };
        if let Some(ended) = say(alloc, out, writer)? {
            return Ok(Some(ended));
        }
    }
    Ok(None)
}
