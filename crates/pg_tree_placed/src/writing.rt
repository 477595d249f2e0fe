//! Writing the text of noted steps, from the first step to the last, through a block. It takes no memory.
//!
//! Most steps have no note, and write themselves: that is inlined here. What has a note is the matter of `noted.rt`, out of line.

ghost use Rattle.std.specs.Prelude.{◌≡◌, ◌∷◌, ◌++◌, ◌≤◌, [], false, true, length, take, reverse, codes, is_err, OnOk, OnErr, IsErrOf};
ghost use Rattle.std.specs.Io.KnownBytes.{Appends};
ghost use Rattle.pg_tree.specs.Bytes.{AppendsPrefix};
ghost use Rattle.pg_tree.specs.Json.{quoted};
ghost use Rattle.pg_tree_placed.specs.Made.{text_between};
ghost use Rattle.pg_tree_placed.specs.Written.{comma};
ghost use Rattle.pg_tree_placed.specs.Forward.{forward, noted_text, step_text};
ghost use Rattle.pg_tree_placed.specs.Writing.{AreClosings, IsPut, is_next};
ghost use Rattle.pg_tree_placed.specs.declared.note.Way.TheVariants.{Shown};

use crate::block::{Block, Stopped};
use crate::entry::Entry;
use crate::note::Note;
use crate::openings::push_any;
use crate::source::Source;
use pg_tree::{Meter, WriteFault};
use std::io::Write;

impl Source<'_> {
    /// Writes the text of steps by their notes, of which that on the last step comes first. What waits in the block is dropped before. It takes no memory, and
    /// doesn't flush the writer.
    pub(crate) fn write_noted<W: Write>(
        &self,
        entries: &[Entry],
        notes: &[Note],
        block: &mut Block,
        writer: &mut Meter<W>,
    ) -> Result<(), WriteFault>
        requires closings { AreClosings self.now }
        requires well { writer.old.failed ≡ false }

        // The writer took the text, and no more.
        ensures ok { OnOk result (Appends (W.contents writer.old.inner) (W.contents writer.new.inner) (noted_text self.now.text.now self.now.labels.now entries.now notes.now)) }
        ensures stays { OnOk result (writer.new.failed ≡ false) }

        // The only error is the writer's, which took a prefix of the text.
        ensures only { OnErr result (IsErrOf result WriteFault.Writer) }
        ensures failed { OnErr result (writer.new.failed ≡ true) }
        ensures prefix { OnErr result (AppendsPrefix (W.contents writer.old.inner) (W.contents writer.new.inner) (noted_text self.now.text.now self.now.labels.now entries.now notes.now)) }
    {
        block.clear();
        match self.push_text(entries, notes, block, writer) {
            Ok(()) => Ok(()),
            Err(_) => Err(WriteFault::Writer),
        }
    }

    /// Pushes the whole text onto an empty block, and writes what waits then.
    fn push_text<W: Write>(
        &self,
        entries: &[Entry],
        notes: &[Note],
        block: &mut Block,
        writer: &mut Meter<W>,
    ) -> Result<(), Stopped>
        requires closings { AreClosings self.now }
        requires empty { block.old ≡ [] }
        requires well { writer.old.failed ≡ false }
        ensures failed { writer.new.failed ≡ is_err result }
        ensures ok { OnOk result (Appends (W.contents writer.old.inner) (W.contents writer.new.inner) (noted_text self.now.text.now self.now.labels.now entries.now notes.now)) }
        ensures prefix { OnErr result (AppendsPrefix (W.contents writer.old.inner) (W.contents writer.new.inner) (noted_text self.now.text.now self.now.labels.now entries.now notes.now)) }
    {
        block.push(b"[", writer)?;
        self.push_steps(entries, notes, block, writer)?;
        block.push(b"]", writer)?;
        block.flush(writer)
    }

    /// Pushes the text of all steps.
    fn push_steps<W: Write>(
        &self,
        entries: &[Entry],
        notes: &[Note],
        block: &mut Block,
        writer: &mut Meter<W>,
    ) -> Result<(), Stopped>
        requires closings { AreClosings self.now }
        requires well { writer.old.failed ≡ false }
        ensures failed { writer.new.failed ≡ is_err result }
        ensures so { IsPut result (W.contents writer.old.inner) block.old (W.contents writer.new.inner) block.new (forward self.now.text.now self.now.labels.now false 0 0 entries.now (reverse notes.now)) }
    {
        let mut ended = false;
        let mut left = notes.len();
        let mut step = 0;
        while step < entries.len() {
            if is_noted(notes, left, step) {
                left -= 1;
                let (next, has_ended) = self.push_noted(
                    entries,
                    step,
                    notes[left],
                    ended,
                    block,
                    writer,
                )?;
                step = next;
                ended = has_ended;
                continue;
            }
            self.push_shown(entries[step], ended, block, writer)?;
            ended = true;
            step += 1;
        }
        Ok(())
    }

    /// Pushes the text of a step that has no note: a comma if a tree has ended and this one begins, and what the step shows. A joined leaf has a note.
    #[inline(always)]
    pub(crate) fn push_shown<W: Write>(
        &self,
        entry: Entry,
        ended: bool,
        block: &mut Block,
        writer: &mut Meter<W>,
    ) -> Result<(), Stopped>
        requires closings { AreClosings self.now }
        requires well { writer.old.failed ≡ false }
        ensures failed { writer.new.failed ≡ is_err result }
        ensures so { IsPut result (W.contents writer.old.inner) block.old (W.contents writer.new.inner) block.new (step_text self.now.text.now self.now.labels.now ended 0 Shown entry) }
    {
        match entry {
            Entry::Leaf(from, to) => self.push_leaf(from, to, ended, block, writer),
            Entry::Node(label, _) | Entry::Flat(label, _) => {
                self.push_closing(label as usize, block, writer)
            }
            Entry::Single(label, from, to) => {
                self.push_first_leaf(from, to, ended, block, writer)?;
                self.push_closing(usize::from(label), block, writer)
            }
            Entry::Join(_) => Ok(()),
        }
    }

    /// Pushes the leaf between two places, behind a comma if one is wanted. Most leaves are one character that stands for itself.
    #[inline(always)]
    fn push_leaf<W: Write>(
        &self,
        from: u32,
        to: u32,
        is_comma: bool,
        block: &mut Block,
        writer: &mut Meter<W>,
    ) -> Result<(), Stopped>
        requires { writer.old.failed ≡ false }
        ensures failed { writer.new.failed ≡ is_err result }
        ensures so { IsPut result (W.contents writer.old.inner) block.old (W.contents writer.new.inner) block.new (comma is_comma ++ quoted (text_between self.now.text.now from to)) }
    {
        match self.plain_leaf(from, to) {
            Some(byte) => push_plain(byte, is_comma, block, writer),
            None => push_any(self.between(from, to), is_comma, 0, block, writer),
        }
    }

    /// The same with the opening text of a node before the leaf.
    #[inline(always)]
    fn push_first_leaf<W: Write>(
        &self,
        from: u32,
        to: u32,
        is_comma: bool,
        block: &mut Block,
        writer: &mut Meter<W>,
    ) -> Result<(), Stopped>
        requires { writer.old.failed ≡ false }
        ensures failed { writer.new.failed ≡ is_err result }
        ensures so { IsPut result (W.contents writer.old.inner) block.old (W.contents writer.new.inner) block.new (comma is_comma ++ (codes "{\"kids\":[" ++ quoted (text_between self.now.text.now from to))) }
    {
        match self.plain_leaf(from, to) {
            Some(byte) => push_first_plain(byte, is_comma, block, writer),
            None => push_any(self.between(from, to), is_comma, 1, block, writer),
        }
    }
}

/// Whether the next note is on this step: so many are left, and the last of them comes first.
#[inline(always)]
fn is_noted(notes: &[Note], left: usize, step: usize) -> bool
    requires { left ≤ length notes.now }
    ensures { result ≡ is_next (reverse (take left notes.now)) step }
{
    left > 0 && notes[left - 1].step as usize == step
}

/// Pushes a leaf of one byte that stands for itself, behind a comma if one is wanted.
#[inline(always)]
fn push_plain<W: Write>(
    byte: u8,
    is_comma: bool,
    block: &mut Block,
    writer: &mut Meter<W>,
) -> Result<(), Stopped>
    requires { writer.old.failed ≡ false }
    ensures failed { writer.new.failed ≡ is_err result }
    ensures so { IsPut result (W.contents writer.old.inner) block.old (W.contents writer.new.inner) block.new (comma is_comma ++ 34 ∷ byte ∷ 34 ∷ []) }
{
    if is_comma {
        block.push_with(b",\"?\"", 2, byte, writer)
    } else {
        block.push_with(b"\"?\"", 1, byte, writer)
    }
}

/// The same with the opening text of a node before the leaf.
#[inline(always)]
fn push_first_plain<W: Write>(
    byte: u8,
    is_comma: bool,
    block: &mut Block,
    writer: &mut Meter<W>,
) -> Result<(), Stopped>
    requires { writer.old.failed ≡ false }
    ensures failed { writer.new.failed ≡ is_err result }
    ensures so { IsPut result (W.contents writer.old.inner) block.old (W.contents writer.new.inner) block.new (comma is_comma ++ (codes "{\"kids\":[" ++ 34 ∷ byte ∷ 34 ∷ [])) }
{
    if is_comma {
        block.push_with(b",{\"kids\":[\"?\"", 11, byte, writer)
    } else {
        block.push_with(b"{\"kids\":[\"?\"", 10, byte, writer)
    }
}
