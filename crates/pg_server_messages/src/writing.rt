//! From what goes out to bytes.
ghost use Rattle.std.specs.Prelude.{OnOk};
ghost use Rattle.std.specs.Io.KnownBytes.{Appends, Keeps};
ghost use Rattle.pg_server_messages.specs.Framing.{framed};

use crate::outgoing::{Outgoing, object_of};
use std::alloc::Global;
use std::io::Write;

/// Why a message wasn't written.
#[derive(Clone, Copy, Debug, Drop, PartialEq, Eq)]
pub enum WritingFault {
    /// The writer answered an error or took nothing.
    Writer,
    /// Memory ran out. Nothing was written.
    Memory,
}

/// Writes a message, and flushes the writer. Fails if the writer fails or memory runs out.
pub fn write_message<W: Write>(
    alloc: Global,
    message: Outgoing,
    writer: &mut W,
) -> Result<(), WritingFault> {
    let Ok(object) = object_of(alloc, message) else {
        return Err(WritingFault::Memory);
    };
    let text = object.to_string(alloc);
    drop(object);
    match text {
        Ok(body) => write_body(alloc, body.as_str(), writer),
        Err(_) => Err(WritingFault::Memory),
    }
}

/// Writes a body behind its header, and flushes the writer. Fails if the writer fails or memory runs out.
#[tactic(auto, using(crate::proofs::Kept::appends_kept))]
pub fn write_body<W: Write>(alloc: Global, body: &str, writer: &mut W) -> Result<(), WritingFault>
    ensures { OnOk result (Appends (W.contents writer.old) (W.contents writer.new) (framed body.now)) }
{
    let length = body.len();
    let Ok(page) = format!(in alloc; "Content-Length: {length}\r\n\r\n{body}") else {
        return Err(WritingFault::Memory);
    };
    match writer.write_all(page.as_bytes()) {
        Ok(()) => flush(writer),
        Err(_) => Err(WritingFault::Writer),
    }
}

/// Hands on what the writer holds.
fn flush<W: Write>(writer: &mut W) -> Result<(), WritingFault>
    ensures { OnOk result (Keeps (W.contents writer.old) (W.contents writer.new)) }
{
    match writer.flush() {
        Ok(()) => Ok(()),
        Err(_) => Err(WritingFault::Writer),
    }
}
