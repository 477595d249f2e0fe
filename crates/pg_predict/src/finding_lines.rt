//! The lines of findings, written one by one.
//!
//! Each is written as it is found, and none is kept. The functions allocate no memory, so their only error is that the writer
//! fails.
ghost use Rattle.std.specs.Prelude.{◌≡◌, ◌++◌, [], false, is_err, OnOk, OnErr};
ghost use Rattle.std.specs.Io.KnownBytes.{Appends};
ghost use Rattle.pg_tree.specs.Bytes.{AppendsPrefix};
ghost use Rattle.pg_text_pieces.specs.Writing.{Puts};
ghost use Rattle.pg_predict.specs.Found.{lines_found};

use crate::findings::Findings;
use pg_text_pieces::{Stopped, send};
use pg_tree::Meter;
use std::io::Write;

/// Writes the line of each finding.
pub(crate) fn write_lines<W: Write>(
    findings: &mut Findings,
    buffer: &mut Vec<u8>,
    writer: &mut Meter<W>,
) -> Result<(), Stopped>
    requires fresh { writer.old.failed ≡ false }
    requires empty { buffer.old.items ≡ [] }
    ensures failed { writer.new.failed ≡ is_err result }
    ensures ok { OnOk result (Appends (W.contents writer.old.inner) (W.contents writer.new.inner) (lines_found findings.old)) }
    ensures prefix { OnErr result (AppendsPrefix (W.contents writer.old.inner) (W.contents writer.new.inner) (lines_found findings.old)) }
{
    put_lines(findings, buffer, writer)?;
    send(buffer, writer)?;
    Ok(())
}

/// Puts the line of each finding into the buffer.
fn put_lines<W: Write>(
    findings: &mut Findings,
    buffer: &mut Vec<u8>,
    writer: &mut Meter<W>,
) -> Result<(), Stopped>
    requires fresh { writer.old.failed ≡ false }
    ensures failed { writer.new.failed ≡ is_err result }
    ensures ok { OnOk result (Puts (W.contents writer.old.inner) buffer.old.items (W.contents writer.new.inner) buffer.new.items (lines_found findings.old)) }
    ensures prefix { OnErr result (AppendsPrefix (W.contents writer.old.inner) (W.contents writer.new.inner) (buffer.old.items ++ lines_found findings.old)) }
{
    'all: while let Some(finding) = findings.next() {
        finding.put(buffer, writer)?;
    }
    Ok(())
}
