//! Writing pieces through a buffer. It takes no memory beyond the buffer's.
//!
//! Bytes stay in the buffer until it is full. So the writer is called once for many lines, and not for each piece of one.
ghost use Rattle.std.specs.Prelude.{◌≡◌, ◌+◌, ◌≤◌, ◌++◌, false, [], length, vec_len, vec_capacity, is_err, OnOk, OnErr};
ghost use Rattle.std.specs.Io.KnownBytes.{Appends};
ghost use Rattle.pg_tree.specs.Bytes.{AppendsPrefix};
ghost use Rattle.pg_text_pieces.specs.Writing.{Puts, piece_bytes, pieces_bytes};

use crate::piece::Piece;
use itoa::Buffer;
use pg_tree::{Meter, write_bytes};
use std::io::Write;

/// The writer failed. The meter knows that too.
#[derive(Debug, Drop)]
pub struct Stopped;

/// Puts the pieces into the buffer, one after another. When it is full, what it holds goes to the writer, and so does a piece that is longer than it (ours).
pub fn put_pieces<W: Write>(
    pieces: &[Piece],
    buffer: &mut Vec<u8>,
    writer: &mut Meter<W>,
) -> Result<(), Stopped>
    requires { writer.old.failed ≡ false }
    ensures failed { writer.new.failed ≡ is_err result }
    ensures ok { OnOk result (Puts (W.contents writer.old.inner) buffer.old.items (W.contents writer.new.inner) buffer.new.items (pieces_bytes pieces.now)) }
    ensures prefix { OnErr result (AppendsPrefix (W.contents writer.old.inner) (W.contents writer.new.inner) (buffer.old.items ++ pieces_bytes pieces.now)) }
{
    for piece in pieces {
        put_piece(*piece, buffer, writer)?;
    }
    Ok(())
}

fn put_piece<W: Write>(
    piece: Piece,
    buffer: &mut Vec<u8>,
    writer: &mut Meter<W>,
) -> Result<(), Stopped>
    requires { writer.old.failed ≡ false }
    ensures failed { writer.new.failed ≡ is_err result }
    ensures ok { OnOk result (Puts (W.contents writer.old.inner) buffer.old.items (W.contents writer.new.inner) buffer.new.items (piece_bytes piece.entry)) }
    ensures prefix { OnErr result (AppendsPrefix (W.contents writer.old.inner) (W.contents writer.new.inner) (buffer.old.items ++ piece_bytes piece.entry)) }
{
    match piece {
        Piece::Text(text) => put(text.as_bytes(), buffer, writer),
        Piece::Number(number) => {
            let mut digits = Buffer::new();
            put(digits.format(number).as_bytes(), buffer, writer)
        }
    }
}

/// Puts the bytes into the buffer. If there isn't room, what it holds goes to the writer first (ours).
#[tactic(auto, using(crate::proofs::Puts::puts_held, crate::proofs::Puts::puts_sent, crate::proofs::Puts::puts_past, crate::proofs::Puts::prefix_longer, crate::proofs::Puts::prefix_after))]
pub fn put<W: Write>(
    bytes: &[u8],
    buffer: &mut Vec<u8>,
    writer: &mut Meter<W>,
) -> Result<(), Stopped>
    requires { writer.old.failed ≡ false }
    ensures failed { writer.new.failed ≡ is_err result }
    ensures ok { OnOk result (Puts (W.contents writer.old.inner) buffer.old.items (W.contents writer.new.inner) buffer.new.items bytes.now) }
    ensures prefix { OnErr result (AppendsPrefix (W.contents writer.old.inner) (W.contents writer.new.inner) (buffer.old.items ++ bytes.now)) }
{
    if bytes.len() <= buffer.capacity().saturating_sub(buffer.len()) {
        keep(bytes, buffer);
        return Ok(());
    }
    send(buffer, writer)?;
    if bytes.len() <= buffer.capacity() {
        keep(bytes, buffer);
        return Ok(());
    }
    pass(bytes, writer)?;
    Ok(())
}

/// Puts bytes into the buffer, which has room for them.
fn keep(bytes: &[u8], buffer: &mut Vec<u8>)
    requires { vec_len buffer.old + length bytes.now ≤ vec_capacity buffer.old }
    ensures { buffer.new.items ≡ buffer.old.items ++ bytes.now }
{
    let _ = buffer.extend_from_slice(bytes);
}

/// Writes what the buffer holds, and empties it (ours).
pub fn send<W: Write>(buffer: &mut Vec<u8>, writer: &mut Meter<W>) -> Result<(), Stopped>
    requires { writer.old.failed ≡ false }
    ensures failed { writer.new.failed ≡ is_err result }
    ensures empty { OnOk result (buffer.new.items ≡ []) }
    ensures ok { OnOk result (Appends (W.contents writer.old.inner) (W.contents writer.new.inner) buffer.old.items) }
    ensures prefix { OnErr result (AppendsPrefix (W.contents writer.old.inner) (W.contents writer.new.inner) buffer.old.items) }
{
    pass(buffer.as_slice(), writer)?;
    buffer.clear();
    Ok(())
}

/// Writes the bytes.
fn pass<W: Write>(bytes: &[u8], writer: &mut Meter<W>) -> Result<(), Stopped>
    requires { writer.old.failed ≡ false }
    ensures failed { writer.new.failed ≡ is_err result }
    ensures ok { OnOk result (Appends (W.contents writer.old.inner) (W.contents writer.new.inner) bytes.now) }
    ensures prefix { OnErr result (AppendsPrefix (W.contents writer.old.inner) (W.contents writer.new.inner) bytes.now) }
{
    match write_bytes(bytes, writer) {
        Ok(()) => Ok(()),
        Err(_) => Err(Stopped),
    }
}
