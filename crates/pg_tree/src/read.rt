//! Reading all the bytes of a metered reader, up to a limit.
//!
//! A reader is called until it is at its end, fails, or has given more than the limit, and never more often than the
//! limit plus one. What is kept in memory is never longer than the limit. Each file that a run reads goes through here.

ghost use Rattle.std.specs.Prelude.{◌≡◌, ◌≤◌, ◌<◌, ◌^◌, ◌+◌, true, false, length, IfOk, OnOk, IsErrOf};
ghost use Rattle.std.specs.Io.KnownBytes.{Consumes, IsAtEnd};
ghost use Rattle.pg_tree.specs.Meter.{saturating_sum};
ghost use Rattle.pg_tree.specs.Bytes.{IsPast};

use crate::meter::Meter;
use std::alloc::Global;
use std::io::Read;
use thiserror::Error;

/// Why bytes were not read.
#[derive(Debug, Drop, Error)]
pub enum ReadFault {
    /// The reader answered an error.
    #[error("X1 cannot read")]
    Reader,
    /// The reader gave more bytes than the limit.
    #[error("X1 cannot read")]
    TooLong,
    /// The bytes did not fit into memory.
    #[error("out of memory")]
    Memory,
}

/// How many bytes one call asks the reader for.
const CHUNK: usize = 4096;

/// Reads to the end. The limit is in bytes, and a reader that gives exactly that many is read whole.
///
/// After an error the bytes that were read are gone, and the reader stands after them.
pub fn read_bytes<R: Read>(
    alloc: Global,
    reader: &mut Meter<R>,
    limit: usize,
) -> Result<Vec<u8>, ReadFault>
    requires well { reader.old.failed ≡ false }
    requires small { limit < 2 ^ 40 }

    // The bytes are what the reader gave, up to its end.
    ensures ok { IfOk result (λ read.
        Consumes (R.remaining reader.old.inner) (R.remaining reader.new.inner) read.items) }
    ensures end { OnOk result (IsAtEnd (R.remaining reader.new.inner)) }
    ensures short { IfOk result (λ read. length read.items ≤ limit) }
    ensures bytes { IfOk result (λ read.
        reader.new.bytes ≡ saturating_sum reader.old.bytes (length read.items)) }
    ensures stays { OnOk result (reader.new.failed ≡ false) }

    // Only here has the reader failed.
    ensures failed { IsErrOf result ReadFault.Reader → reader.new.failed ≡ true }
    ensures long_stays { IsErrOf result ReadFault.TooLong → reader.new.failed ≡ false }
    ensures memory_stays { IsErrOf result ReadFault.Memory → reader.new.failed ≡ false }

    // The reader gave more than the limit.
    ensures long { IsErrOf result ReadFault.TooLong →
        IsPast limit (R.remaining reader.old.inner) (R.remaining reader.new.inner) }
    ensures long_bytes { IsErrOf result ReadFault.TooLong →
        saturating_sum reader.old.bytes (limit + 1) ≤ reader.new.bytes }

    // How often the reader is called, in each outcome.
    ensures asked { reader.new.calls ≤ saturating_sum reader.old.calls (limit + 1) }
{
    let mut read = Vec::new(alloc);
    let mut buffer = [0u8; CHUNK];
    for _ in 0..limit + 1 {
        let Ok(given) = reader.read(&mut buffer) else {
            return Err(ReadFault::Reader);
        };
        if given == 0 {
            return Ok(read);
        }
        if given > limit - read.len() {
            return Err(ReadFault::TooLong);
        }
        if read.extend_from_slice(&buffer[..given]).is_err() {
            return Err(ReadFault::Memory);
        }
    }
    unreachable!()
}
