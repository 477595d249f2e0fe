//! From a reader to the body of the next message.
ghost use Rattle.std.specs.Prelude.{◌≡◌, ◌≤◌, length, IfOk, IfSome};

use crate::header::body_length;
use crate::message_fault::MessageFault;
use std::alloc::Global;
use std::io::{ErrorKind, Read};

/// The most bytes that the header of a message may have.
pub const HEADER_LIMIT: usize = 4096;

/// The most bytes that the body of a message may have: as many as `pgw` reads of a grammar file.
pub const BODY_LIMIT: usize = 67_108_864;

/// The bytes that end a header: the end of its last line, and an empty line.
const HEADER_END: &[u8] = b"\r\n\r\n";

/// The body of the next message: the bytes behind a header, as many as the header says. `None` if the input ends before the first byte of a header. Fails
/// with `Reader`, `CutShort`, `TooLong`, `BadHeader`, or where memory runs out.
///
/// It waits for input and reads no byte behind the body.
pub fn read_body<R: Read>(alloc: Global, reader: &mut R) -> Result<Option<Vec<u8>>, MessageFault>
    ensures { IfOk result (λ found. IfSome found (λ body. length body.items ≤ BODY_LIMIT)) }
{
    let Some(header) = read_header(alloc, reader)? else {
        return Ok(None);
    };
    let length = body_length(lines_of(header.as_slice()));
    drop(header);
    let Some(length) = length else {
        return Err(MessageFault::BadHeader);
    };
    if length > BODY_LIMIT {
        return Err(MessageFault::TooLong);
    }
    let body = read_exactly(alloc, reader, length)?;
    Ok(Some(body))
}

/// The lines of a header, without the empty line at its end.
fn lines_of(header: &[u8]) -> &[u8] {
    match header.strip_suffix(b"\r\n") {
        Some(lines) => lines,
        None => header,
    }
}

/// The bytes up to the first empty line, which ends a header.
fn read_header<R: Read>(alloc: Global, reader: &mut R) -> Result<Option<Vec<u8>>, MessageFault> {
    let mut header: Vec<u8> = Vec::new(alloc);
    for _ in 0..HEADER_LIMIT {
        let Some(byte) = next_byte(reader)? else {
            return at_end(header);
        };
        keep(&mut header, byte)?;
        if header.as_slice().ends_with(HEADER_END) {
            return Ok(Some(header));
        }
    }
    Err(MessageFault::TooLong)
}

/// What the end of input means after these bytes of a header.
fn at_end(header: Vec<u8>) -> Result<Option<Vec<u8>>, MessageFault> {
    if header.is_empty() {
        Ok(None)
    } else {
        Err(MessageFault::CutShort)
    }
}

fn keep(header: &mut Vec<u8>, byte: u8) -> Result<(), MessageFault> {
    match header.push(byte) {
        Ok(()) => Ok(()),
        Err(_) => Err(MessageFault::Memory),
    }
}

/// The next byte; `None` at the end of input.
fn next_byte<R: Read>(reader: &mut R) -> Result<Option<u8>, MessageFault> {
    let mut byte = [0u8; 1];
    match reader.read_exact(&mut byte) {
        Ok(()) => Ok(Some(byte[0])),
        Err(error) if error.kind() == ErrorKind::UnexpectedEof => Ok(None),
        Err(_) => Err(MessageFault::Reader),
    }
}

/// As many bytes as asked for.
fn read_exactly<R: Read>(
    alloc: Global,
    reader: &mut R,
    size: usize,
) -> Result<Vec<u8>, MessageFault>
    ensures { IfOk result (λ body. length body.items ≡ size) }
{
    let Ok(mut body) = vec![in alloc; 0u8; size] else {
        return Err(MessageFault::Memory);
    };
    match reader.read_exact(body.as_mut_slice()) {
        Ok(()) => Ok(body),
        Err(error) if error.kind() == ErrorKind::UnexpectedEof => Err(MessageFault::CutShort),
        Err(_) => Err(MessageFault::Reader),
    }
}
