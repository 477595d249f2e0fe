//! The text of a step that has a note: nodes begin before it, its node is lifted, or a joined leaf begins there.

ghost use Rattle.std.specs.Prelude.{◌≡◌, ◌∷◌, ◌++◌, ◌+◌, ◌&&◌, ◌||◌, ◌<◌, ◌≤◌, ℕ, List, false, true, length, drop, get_or, is_err, IfOk};
ghost use Rattle.json.specs.Print.{escape};
ghost use Rattle.pg_tree.specs.Written.{has_some};
ghost use Rattle.pg_tree_placed.specs.Written.{added_text, less};
ghost use Rattle.pg_tree_placed.specs.Forward.{bare_text, forward, has_ended, is_leaf, step_text, way_text};
ghost use Rattle.pg_tree_placed.specs.Writing.{AreClosings, IsPut, IsPutTo, joined_from, left_from, way_if};
ghost use Rattle.pg_tree_placed.specs.declared.entry.Entry.TheVariants.{Leaf};
ghost use Rattle.pg_tree_placed.specs.declared.note.Note.{Note};
ghost use Rattle.pg_tree_placed.specs.declared.note.Way.TheVariants.{Lifted, Joined};

use crate::block::{Block, Stopped};
use crate::entry::Entry;
use crate::note::{Note, Way};
use crate::openings::push_openings;
use crate::quoting::{push_characters, push_quoted_characters};
use crate::source::Source;
use pg_tree::Meter;
use std::io::Write;

impl Source<'_> {
    /// Pushes the text of a step by its note. Says which step comes next, and whether a tree has ended before it.
    #[inline(never)]
    pub(crate) fn push_noted<W: Write>(
        &self,
        entries: &[Entry],
        step: usize,
        note: Note,
        ended: bool,
        block: &mut Block,
        writer: &mut Meter<W>,
    ) -> Result<(usize, bool), Stopped>
        requires closings { AreClosings self.now }
        requires within { step < length entries.now }
        requires well { writer.old.failed ≡ false }
        ensures failed { writer.new.failed ≡ is_err result }
        ensures further { IfOk result (λ z. step < z.0) }
        ensures so { (ns : List Note) → note.step ≡ step → IsPutTo result (W.contents writer.old.inner) block.old (W.contents writer.new.inner) block.new
            (λ z. left_from self.now.text.now self.now.labels.now entries.now z.1 z.0 ns) (left_from self.now.text.now self.now.labels.now entries.now ended step (note ∷ ns)) }
    {
        let entry = entries[step];
        match note.way {
            Way::Shown => {
                self.push_begun(entry, note.begins, false, ended, block, writer)?;
                Ok((step + 1, true))
            }
            Way::Lifted => {
                self.push_begun(entry, note.begins, true, ended, block, writer)?;
                Ok((step + 1, still_ended(ended, note.begins, entry)))
            }
            Way::Joined(count) => {
                push_openings(ended, note.begins, block, writer)?;
                let next = self.push_joined(entries, step, count, block, writer)?;
                Ok((next, true))
            }
        }
    }

    /// Pushes the opening texts before a step, and what it shows, or what is left of it if its node is lifted.
    fn push_begun<W: Write>(
        &self,
        entry: Entry,
        begins: u32,
        is_lifted: bool,
        ended: bool,
        block: &mut Block,
        writer: &mut Meter<W>,
    ) -> Result<(), Stopped>
        requires closings { AreClosings self.now }
        requires well { writer.old.failed ≡ false }
        ensures failed { writer.new.failed ≡ is_err result }
        ensures so { IsPut result (W.contents writer.old.inner) block.old (W.contents writer.new.inner) block.new (step_text self.now.text.now self.now.labels.now ended begins (way_if is_lifted) entry) }
    {
        push_openings(has_comma(ended, begins, entry), begins, block, writer)?;
        if is_lifted {
            self.push_bare(entry, block, writer)
        } else {
            self.push_shown(entry, false, block, writer)
        }
    }

    /// Pushes what is left of a step whose node is lifted.
    fn push_bare<W: Write>(
        &self,
        entry: Entry,
        block: &mut Block,
        writer: &mut Meter<W>,
    ) -> Result<(), Stopped>
        requires { writer.old.failed ≡ false }
        ensures failed { writer.new.failed ≡ is_err result }
        ensures so { IsPut result (W.contents writer.old.inner) block.old (W.contents writer.new.inner) block.new (bare_text self.now.text.now entry) }
    {
        match entry {
            Entry::Leaf(from, to) | Entry::Single(_, from, to) => {
                push_quoted_characters(self.between(from, to), block, writer)
            }
            Entry::Node(_, _) | Entry::Flat(_, _) | Entry::Join(_) => Ok(()),
        }
    }

    /// Pushes a joined leaf that begins at a step, and to which so many steps belong. Says which step comes next.
    fn push_joined<W: Write>(
        &self,
        entries: &[Entry],
        step: usize,
        count: u32,
        block: &mut Block,
        writer: &mut Meter<W>,
    ) -> Result<usize, Stopped>
        requires within { step < length entries.now }
        requires well { writer.old.failed ≡ false }
        ensures failed { writer.new.failed ≡ is_err result }
        ensures further { IfOk result (λ next. step < next) }
        ensures so { (ns : List Note) → IsPutTo result (W.contents writer.old.inner) block.old (W.contents writer.new.inner) block.new
            (λ next. left_from self.now.text.now self.now.labels.now entries.now true next ns)
            (way_text self.now.text.now self.now.labels.now (Joined count) (get_or entries.now step (Leaf 0 0))
            ++ forward self.now.text.now self.now.labels.now true (less count) (step + 1) (drop (step + 1) entries.now) ns) }
    {
        block.push(b"\"", writer)?;
        self.push_added(entries[step], block, writer)?;
        self.push_rest(entries, step + 1, count.saturating_sub(1), block, writer)
    }

    /// Pushes what so many more steps add to a joined leaf, and its closing quote. Where there are no more steps it ends without one.
    fn push_rest<W: Write>(
        &self,
        entries: &[Entry],
        from: usize,
        count: u32,
        block: &mut Block,
        writer: &mut Meter<W>,
    ) -> Result<usize, Stopped>
        requires { writer.old.failed ≡ false }
        ensures failed { writer.new.failed ≡ is_err result }
        ensures further { IfOk result (λ next. from ≤ next) }
        ensures so { (ns : List Note) → IsPutTo result (W.contents writer.old.inner) block.old (W.contents writer.new.inner) block.new
            (λ next. left_from self.now.text.now self.now.labels.now entries.now true next ns)
            (joined_from self.now.text.now self.now.labels.now entries.now count from ns) }
    {
        let mut left = count;
        let mut step = from;
        while left > 0 {
            if step >= entries.len() {
                return Ok(step);
            }
            self.push_added(entries[step], block, writer)?;
            left -= 1;
            step += 1;
        }
        block.push(b"\"", writer)?;
        Ok(step)
    }

    /// Pushes what a step adds to a joined leaf.
    fn push_added<W: Write>(
        &self,
        entry: Entry,
        block: &mut Block,
        writer: &mut Meter<W>,
    ) -> Result<(), Stopped>
        requires { writer.old.failed ≡ false }
        ensures failed { writer.new.failed ≡ is_err result }
        ensures so { IsPut result (W.contents writer.old.inner) block.old (W.contents writer.new.inner) block.new (escape (added_text self.now.text.now entry)) }
    {
        match entry {
            Entry::Leaf(from, to) | Entry::Single(_, from, to) => {
                push_characters(self.between(from, to), block, writer)
            }
            Entry::Node(_, _) | Entry::Flat(_, _) | Entry::Join(_) => Ok(()),
        }
    }
}

/// Whether a tree has ended after a step whose node is lifted.
fn still_ended(ended: bool, begins: u32, entry: Entry) -> bool
    ensures { result ≡ has_ended ended begins Lifted entry }
{
    if begins == 0 {
        ended || is_leaf(entry)
    } else {
        is_leaf(entry)
    }
}

/// Whether a comma comes before a step that is no joined leaf: a tree has ended, and one begins here.
fn has_comma(ended: bool, begins: u32, entry: Entry) -> bool
    ensures { result ≡ (ended && (has_some begins || is_leaf entry)) }
{
    ended && (begins > 0 || is_leaf(entry))
}

/// Whether a step begins a tree by itself.
fn is_leaf(entry: Entry) -> bool
    ensures { result ≡ is_leaf entry }
{
    match entry {
        Entry::Leaf(_, _) | Entry::Single(_, _, _) => true,
        Entry::Node(_, _) | Entry::Flat(_, _) | Entry::Join(_) => false,
    }
}
