//! The lines of all findings, each with its front, written as the finding is found.
ghost use Rattle.std.specs.Prelude.{◌≡◌, ◌++◌, [], false, true, is_err, OnOk, OnErr, IsErrOf};
ghost use Rattle.std.specs.Io.KnownBytes.{Appends};
ghost use Rattle.pg_tree.specs.Bytes.{AppendsPrefix};
ghost use Rattle.pg_text_pieces.specs.Writing.{Puts};
ghost use Rattle.pg_predict_lines.specs.Lines.{WritesFronted, WritesPartOfFronted, front_at, fronted_line, fronted_lines};

use crate::fronts::{Fronts, front_pieces};
use pg_predict::{Finding, Findings, Refused};
use pg_text_pieces::{Stopped, put_pieces, send};
use pg_tree::{Meter, WriteFault};
use std::alloc::Global;
use std::io::Write;

/// The size of the buffer for lines, in bytes.
const BUFFER: usize = 65_536;

/// Writes a line with its front for each finding of a grammar, in the order of a check (ours). It doesn't flush the writer.
///
/// Its memory doesn't grow with the findings, and is allocated before the first byte is written.
pub fn write_fronted<W: Write>(
    alloc: Global,
    refused: &Refused,
    fronts: &Fronts,
    writer: &mut Meter<W>,
) -> Result<(), WriteFault>
    requires { writer.old.failed ≡ false }
    ensures ok { OnOk result (WritesFronted refused.now (front_at fronts.now) (W.contents writer.old.inner) (W.contents writer.new.inner)) }
    ensures stays { OnOk result (writer.new.failed ≡ false) }
    ensures failed { IsErrOf result WriteFault.Writer → writer.new.failed ≡ true }
    ensures prefix { IsErrOf result WriteFault.Writer →
        WritesPartOfFronted refused.now (front_at fronts.now) (W.contents writer.old.inner) (W.contents writer.new.inner) }
    ensures memory { IsErrOf result WriteFault.Memory → writer.new ≡ writer.old }
{
    let Ok(mut buffer) = Vec::with_capacity(alloc, BUFFER) else {
        return Err(WriteFault::Memory);
    };
    match write_lines(fronts, &mut refused.findings(), &mut buffer, writer) {
        Ok(()) => Ok(()),
        Err(_) => Err(WriteFault::Writer),
    }
}

/// Writes the line of each finding.
fn write_lines<W: Write>(
    fronts: &Fronts,
    findings: &mut Findings,
    buffer: &mut Vec<u8>,
    writer: &mut Meter<W>,
) -> Result<(), Stopped>
    requires fresh { writer.old.failed ≡ false }
    requires empty { buffer.old.items ≡ [] }
    ensures failed { writer.new.failed ≡ is_err result }
    ensures ok { OnOk result (Appends (W.contents writer.old.inner) (W.contents writer.new.inner) (fronted_lines (front_at fronts.now) findings.old)) }
    ensures prefix { OnErr result (AppendsPrefix (W.contents writer.old.inner) (W.contents writer.new.inner) (fronted_lines (front_at fronts.now) findings.old)) }
{
    put_lines(fronts, findings, buffer, writer)?;
    send(buffer, writer)?;
    Ok(())
}

/// Puts the line of each finding into the buffer.
fn put_lines<W: Write>(
    fronts: &Fronts,
    findings: &mut Findings,
    buffer: &mut Vec<u8>,
    writer: &mut Meter<W>,
) -> Result<(), Stopped>
    requires fresh { writer.old.failed ≡ false }
    ensures failed { writer.new.failed ≡ is_err result }
    ensures ok { OnOk result (Puts (W.contents writer.old.inner) buffer.old.items (W.contents writer.new.inner) buffer.new.items (fronted_lines (front_at fronts.now) findings.old)) }
    ensures prefix { OnErr result (AppendsPrefix (W.contents writer.old.inner) (W.contents writer.new.inner) (buffer.old.items ++ fronted_lines (front_at fronts.now) findings.old)) }
{
    'all: while let Some(finding) = findings.next() {
        put_fronted(fronts, &finding, buffer, writer)?;
    }
    Ok(())
}

/// Puts the front and the line of a finding into the buffer.
fn put_fronted<W: Write>(
    fronts: &Fronts,
    finding: &Finding,
    buffer: &mut Vec<u8>,
    writer: &mut Meter<W>,
) -> Result<(), Stopped>
    requires fresh { writer.old.failed ≡ false }
    ensures failed { writer.new.failed ≡ is_err result }
    ensures ok { OnOk result (Puts (W.contents writer.old.inner) buffer.old.items (W.contents writer.new.inner) buffer.new.items (fronted_line (front_at fronts.now) finding.now)) }
    ensures prefix { OnErr result (AppendsPrefix (W.contents writer.old.inner) (W.contents writer.new.inner) (buffer.old.items ++ fronted_line (front_at fronts.now) finding.now)) }
{
    put_pieces(&front_pieces(&fronts.front(finding.node())), buffer, writer)?;
    finding.put(buffer, writer)?;
    Ok(())
}
