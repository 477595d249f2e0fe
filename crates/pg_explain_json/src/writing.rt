//! The lines of all findings, each written as soon as the finding comes.
ghost use Rattle.std.specs.Prelude.{◌≡◌, false, true, is_err, OnOk, OnErr, IsErrOf};
ghost use Rattle.pg_explain_json.specs.Pages.{PutsLines, WritesPage, WritesPartOfPage};

use crate::finding::line_of;
use crate::listing::{ListedFile, Listing};
use crate::told::{ToldFinding, told_of};
use pg_predict::{Findings, Refused};
use pg_text_pieces::{Stopped, put_pieces, send};
use pg_tree::{Meter, WriteFault};
use std::alloc::Global;
use std::io::Write;

/// How many bytes of lines the buffer holds before they are written.
const BUFFER: usize = 65_536;

/// Writes all findings of a refused grammar, in the order of a check, as lines of JSON that each end with a line feed (ours). Explanations, in the order of
/// findings, come at the end of the lines of their findings. The writer isn't flushed.
///
/// The memory that this takes doesn't grow with the findings, and all of it is allocated before the first byte is written.
pub fn write_listing<W: Write>(
    alloc: Global,
    refused: &Refused,
    file: ListedFile<'_>,
    told: &[ToldFinding],
    writer: &mut Meter<W>,
) -> Result<(), WriteFault>
    requires { writer.old.failed ≡ false }
    ensures ok { OnOk result (WritesPage (W.contents writer.old.inner) (W.contents writer.new.inner)) }
    ensures stays { OnOk result (writer.new.failed ≡ false) }
    ensures failed { IsErrOf result WriteFault.Writer → writer.new.failed ≡ true }
    ensures prefix { IsErrOf result WriteFault.Writer → WritesPartOfPage (W.contents writer.old.inner) (W.contents writer.new.inner) }
    ensures memory { IsErrOf result WriteFault.Memory → writer.new ≡ writer.old }
{
    let Ok(listing) = Listing::of(alloc, refused, file) else {
        return Err(WriteFault::Memory);
    };
    let Ok(mut buffer) = Vec::with_capacity(alloc, BUFFER) else {
        return Err(WriteFault::Memory);
    };
    match write_lines(&listing, told, &mut refused.findings(), &mut buffer, writer) {
        Ok(()) => Ok(()),
        Err(_) => Err(WriteFault::Writer),
    }
}

/// Writes the line of each finding.
fn write_lines<W: Write>(
    listing: &Listing,
    told: &[ToldFinding],
    findings: &mut Findings,
    buffer: &mut Vec<u8>,
    writer: &mut Meter<W>,
) -> Result<(), Stopped>
    requires fresh { writer.old.failed ≡ false }
    ensures failed { writer.new.failed ≡ is_err result }
    ensures ok { OnOk result (WritesPage (W.contents writer.old.inner) (W.contents writer.new.inner)) }
    ensures prefix { OnErr result (WritesPartOfPage (W.contents writer.old.inner) (W.contents writer.new.inner)) }
{
    put_lines(listing, told, findings, buffer, writer)?;
    send(buffer, writer)?;
    Ok(())
}

/// Puts the line of each finding into the buffer.
fn put_lines<'p, W: Write>(
    listing: &'p Listing,
    told: &'p [ToldFinding],
    findings: &mut Findings,
    buffer: &mut Vec<u8>,
    writer: &mut Meter<W>,
) -> Result<(), Stopped>
    requires fresh { writer.old.failed ≡ false }
    ensures failed { writer.new.failed ≡ is_err result }
    ensures ok { OnOk result (PutsLines (W.contents writer.old.inner) buffer.old.items (W.contents writer.new.inner) buffer.new.items) }
    ensures prefix { OnErr result (WritesPartOfPage (W.contents writer.old.inner) (W.contents writer.new.inner)) }
{
    let mut told = told;
    'all: while let Some(finding) = findings.next() {
        let (more, rest) = told_of(told, &finding);
        told = rest;
        let line = line_of(listing, &finding, more);
        put_pieces(&line, buffer, writer)?;
    }
    Ok(())
}
