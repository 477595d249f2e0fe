//! Reading a text.

ghost use Rattle.std.specs.Prelude.{◌≡◌, ◌≤◌, ◌+◌, ◌*◌, false, IfOk, IfErr, OnOk};
ghost use Rattle.std.specs.Io.KnownBytes.{Consumes, IsAtEnd};
ghost use Rattle.pg_tree.specs.Meter.{saturating_sum};
ghost use Rattle.pg_bench.specs.Parsed.{IsSpelledBy, IsTextOf};
ghost use Rattle.pg_bench.specs.Refusals.{IsReadRefusal, IsTextRefusal, IsUnspelled, IsWell};

use pg_bench_grammar::BenchFault;
use pg_text::{LIMIT, Text, TextFault};
use pg_tree::{Meter, ReadFault, read_bytes};
use std::alloc::Global;
use std::io::Read;

/// The most bytes of a text. A character has at most four.
const TEXT_BYTES: usize = 4 * LIMIT;

/// The text that a reader gives. Fails with `Reader`, with the faults of `text_of`, or with `Memory`.
#[tactic(auto, using(crate::proofs::ReadTexts::text_read, crate::proofs::ReadTexts::read_unspelled, crate::proofs::ReadTexts::text_unspelled))]
pub(crate) fn text_from<R: Read>(alloc: Global, reader: &mut Meter<R>) -> Result<Text, BenchFault>
    requires { reader.old.failed ≡ false }
    ensures ok { IfOk result (IsTextOf (R.remaining reader.old.inner) (R.remaining reader.new.inner)) }
    ensures well { OnOk result (IsWell reader.old reader.new) }
    ensures err { IfErr result (IsUnspelled reader.old reader.new (R.remaining reader.old.inner) (R.remaining reader.new.inner)) }
    ensures asked { reader.new.calls ≤ saturating_sum reader.old.calls (4 * LIMIT + 1) }
{
    let bytes = read_text(alloc, reader)?;
    text_of(alloc, bytes.as_slice())
}

/// All bytes that the reader gives. Fails with `Reader` or `Memory`.
pub fn read_text<R: Read>(alloc: Global, reader: &mut Meter<R>) -> Result<Vec<u8>, BenchFault>
    requires { reader.old.failed ≡ false }
    ensures ok { IfOk result (λ read. Consumes (R.remaining reader.old.inner) (R.remaining reader.new.inner) read.items) }
    ensures end { OnOk result (IsAtEnd (R.remaining reader.new.inner)) }
    ensures well { OnOk result (IsWell reader.old reader.new) }
    ensures err { IfErr result (IsReadRefusal reader.old reader.new) }
    ensures asked { reader.new.calls ≤ saturating_sum reader.old.calls (4 * LIMIT + 1) }
{
    match read_bytes(alloc, reader, TEXT_BYTES) {
        Ok(bytes) => Ok(bytes),
        Err(ReadFault::Reader | ReadFault::TooLong) => Err(BenchFault::Reader),
        Err(ReadFault::Memory) => Err(BenchFault::Memory),
    }
}

/// The text that the bytes spell. Fails with `NotUtf8`, with `TooLong` if it has more than 1,048,576 characters, or where memory runs out.
pub fn text_of(alloc: Global, bytes: &[u8]) -> Result<Text, BenchFault>
    ensures ok { IfOk result (IsSpelledBy bytes.now) }
    ensures err { IfErr result (IsTextRefusal bytes.now) }
{
    match Text::from_bytes(alloc, bytes) {
        Ok(text) => Ok(text),
        Err(TextFault::NotUtf8) => Err(BenchFault::NotUtf8),
        Err(TextFault::TooLong) => Err(BenchFault::TooLong),
        Err(TextFault::Memory) => Err(BenchFault::Memory),
    }
}
