//! Writes the page of a forest, piece by piece.

ghost use Rattle.std.specs.Prelude.{◌≡◌, true, false, OnOk, IsErrOf};

use crate::outline_page::Page;
use pg_trail_places::DerivedText;
use pg_tree::{Forest, Meter, WriteFault, write_bytes};
use std::alloc::Global;
use std::io::Write;

/// How many bytes are written at once, or a few more.
const PIECE: usize = 65_536;

/// Writes a text's forest for people to read. The trail must be that of its derivation from the table. There is a line for each node and leaf, a node's
/// before those of its kids, which are indented by two more spaces (ours). A line has the node's label or the leaf's text in quotes, with JSON's escapes, and
/// then the line and the column at which it begins, both from 1. A leaf is on the line of a node if it is all that is in it and begins where it does.
///
/// ```text
/// + 1:1
///   num 1:1 "12"
///   num 1:6 "3"
/// ```
///
/// What is in more than 40 nodes isn't indented further, and begins with the number of nodes around it, as `41> num 1:90 "1"`. A label
/// that is no word is in quotes too, after the word `node`. The writer must not have failed yet. The only errors are that the writer fails and that memory
/// runs out.
pub fn write_outline<W: Write>(
    alloc: Global,
    derived: &DerivedText<'_>,
    forest: Forest,
    writer: &mut Meter<W>,
) -> Result<(), WriteFault>
    requires { writer.old.failed ≡ false }
    ensures stays { OnOk result (writer.new.failed ≡ false) }
    ensures failed { IsErrOf result WriteFault.Writer → writer.new.failed ≡ true }
{
    match Page::of(alloc, derived, &forest) {
        Ok(page) => write_page(alloc, &page, writer),
        Err(_) => Err(WriteFault::Memory),
    }
}

/// Writes a page.
fn write_page<W: Write>(alloc: Global, page: &Page, writer: &mut Meter<W>) -> Result<(), WriteFault>
    requires { writer.old.failed ≡ false }
    ensures stays { OnOk result (writer.new.failed ≡ false) }
    ensures failed { IsErrOf result WriteFault.Writer → writer.new.failed ≡ true }
{
    // So a piece takes no more memory while it is filled, and if memory runs out, it does so before the first piece is written.
    let room = PIECE.saturating_add(page.longest_line());
    match Vec::with_capacity(alloc, room) {
        Ok(mut piece) => write_lines(page, &mut piece, writer),
        Err(_) => Err(WriteFault::Memory),
    }
}

/// Writes the lines of a page, with one piece that is filled again and again.
fn write_lines<W: Write>(
    page: &Page,
    piece: &mut Vec<u8>,
    writer: &mut Meter<W>,
) -> Result<(), WriteFault>
    requires { writer.old.failed ≡ false }
    ensures stays { OnOk result (writer.new.failed ≡ false) }
    ensures failed { IsErrOf result WriteFault.Writer → writer.new.failed ≡ true }
{
    for number in 0..page.lines.len() {
        write_line(page, number, piece, writer)?;
    }
    write_bytes(piece.as_slice(), writer)
}

/// Appends a line to the piece, and writes the piece when it is large.
fn write_line<W: Write>(
    page: &Page,
    number: usize,
    piece: &mut Vec<u8>,
    writer: &mut Meter<W>,
) -> Result<(), WriteFault>
    requires { writer.old.failed ≡ false }
    ensures stays { OnOk result (writer.new.failed ≡ false) }
    ensures failed { IsErrOf result WriteFault.Writer → writer.new.failed ≡ true }
{
    if page.push_line(number, piece).is_err() {
        return Err(WriteFault::Memory);
    }
    if piece.len() < PIECE {
        return Ok(());
    }
    write_bytes(piece.as_slice(), writer)?;
    piece.clear();
    Ok(())
}
