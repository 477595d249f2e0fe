//! Writing bytes, and forests as JSON, to a metered writer.
//!
//! Either everything is written, or the writer failed and has a prefix of it. A text is complete before its first byte
//! is written, so running out of memory leaves the writer as it was. A run prints its results through here.

ghost use Rattle.std.specs.Prelude.{◌≡◌, true, false, length, OnOk, OnErr, IsErrOf};
ghost use Rattle.std.specs.Io.KnownBytes.{Appends};
ghost use Rattle.pg_tree.specs.Json.{json};
ghost use Rattle.pg_tree.specs.Meter.{saturating_sum};
ghost use Rattle.pg_tree.specs.Bytes.{AppendsPrefix};

use crate::forest::Forest;
use crate::json_text::json_text;
use crate::meter::Meter;
use std::alloc::Global;
use std::io::Write;
use thiserror::Error;

/// Why bytes were not written.
#[derive(Debug, Drop, Error)]
pub enum WriteFault {
    /// The writer answered an error, or took no byte of a text that has some.
    #[error("W1 cannot write")]
    Writer,
    /// The text did not fit into memory.
    #[error("out of memory")]
    Memory,
}

/// Writes all the bytes, in as many calls as the writer needs. It doesn't flush, and an empty text makes no call.
pub fn write_bytes<W: Write>(bytes: &[u8], writer: &mut Meter<W>) -> Result<(), WriteFault>
    requires { writer.old.failed ≡ false }

    // The writer took all the bytes, and no more.
    ensures ok { OnOk result
        (Appends (W.contents writer.old.inner) (W.contents writer.new.inner) bytes.now) }
    ensures bytes { OnOk result (writer.new.bytes ≡ saturating_sum writer.old.bytes (length bytes.now)) }
    ensures stays { OnOk result (writer.new.failed ≡ false) }

    // The only error is the writer's.
    ensures only { OnErr result (IsErrOf result WriteFault.Writer) }
    ensures failed { OnErr result (writer.new.failed ≡ true) }
    ensures prefix { OnErr result
        (AppendsPrefix (W.contents writer.old.inner) (W.contents writer.new.inner) bytes.now) }
{
    let mut written = 0;
    while written < bytes.len() {
        match writer.write(&bytes[written..]) {
            Ok(0) | Err(_) => return Err(WriteFault::Writer),
            Ok(taken) => written += taken,
        }
    }
    Ok(())
}

/// Writes the text in JSON of a forest, with no line end after it.
pub fn write_json<W: Write>(
    alloc: Global,
    forest: &Forest,
    writer: &mut Meter<W>,
) -> Result<(), WriteFault>
    requires { writer.old.failed ≡ false }

    // The writer took the text, and no more.
    ensures ok { OnOk result
        (Appends (W.contents writer.old.inner) (W.contents writer.new.inner) (json forest.now)) }
    ensures bytes { OnOk result
        (writer.new.bytes ≡ saturating_sum writer.old.bytes (length (json forest.now))) }
    ensures stays { OnOk result (writer.new.failed ≡ false) }

    // The writer failed, after a prefix of the text.
    ensures failed { IsErrOf result WriteFault.Writer → writer.new.failed ≡ true }
    ensures prefix { IsErrOf result WriteFault.Writer →
        AppendsPrefix (W.contents writer.old.inner) (W.contents writer.new.inner) (json forest.now) }

    // Memory ran out before the first byte.
    ensures memory { IsErrOf result WriteFault.Memory → writer.new ≡ writer.old }
{
    let Ok(text) = json_text(alloc, forest) else {
        return Err(WriteFault::Memory);
    };
    write_bytes(text.as_slice(), writer)
}
