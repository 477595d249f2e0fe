//! The pieces of a forest, in order.
//!
//! A forest's entries are read from the last to the first, and a node's beginning is a piece once all of its kids were read. So the pieces come in reverse.
//! No text is copied, and nothing recurses, however deep the trees are.

ghost use Rattle.std.specs.Prelude.{◌≡◌, ◌<◌, ◌++◌, [], ◌∷◌, true, false, List, length, reverse, IfOk, OnOk, vec_len};
ghost use Rattle.pg_tree.specs.Stored.{entries_of};
ghost use Rattle.pg_tree.specs.Trees.{kids_of};
ghost use Rattle.pg_tree.specs.Kept.{Kept};
ghost use Rattle.pg_tree.specs.Entries.{Opens};
ghost use Rattle.pg_corpus_outline.specs.Pieces.{Token, tokens_of, trees_tokens};
ghost use Rattle.pg_corpus_outline.specs.Reading.{Reads, AreBefore};

use crate::piece::Piece;
use pg_tree::{Entries, Forest, Seen};
use std::alloc::{AllocError, Global};

/// The pieces of the forest.
pub(crate) fn pieces_of<'a>(alloc: Global, forest: &'a Forest) -> Result<Vec<Piece<'a>>, AllocError>
    ensures { IfOk result (λ pieces. tokens_of pieces.items ≡ trees_tokens (kids_of forest.now)) }
{
    let mut reading = Reading {
        entries: forest.entries(),
        pieces: Vec::new(alloc),
        opened: Vec::new(alloc),
    };
    'entries: loop {
        if !reading.go_on()? {
            break;
        }
    }
    let Reading { mut pieces, .. } = reading;
    pieces.reverse();
    Ok(pieces)
}

/// A node some of whose kids may still come.
#[derive(Clone, Copy)]
pub(crate) struct OpenNode<'a> {
    label: &'a [u8],
    /// How many entries come before its tree.
    begin: usize,
}

/// The entries that are left, the pieces so far, from the last on, and the open nodes, the innermost last.
#[derive(Drop)]
pub(crate) struct Reading<'a> {
    entries: Entries<'a>,
    pieces: Vec<Piece<'a>>,
    opened: Vec<OpenNode<'a>>,
}

impl<'a> Reading<'a> {
    /// Reads the next entry, and says whether there was one.
    fn go_on(&mut self) -> Result<bool, AllocError>
        ensures reads { OnOk result ((all : List Token) → Reads self.old all → Reads self.new all) }
        ensures fewer { IfOk result (λ more. more ≡ true → length (entries_of self.new.entries) < length (entries_of self.old.entries)) }
        ensures ends { IfOk result (λ more. more ≡ false → (self.new.entries ≡ []) × (AreBefore 0 (reverse self.new.opened.items))) }
    {
        let count = self.entries.len();
        self.begin_all(count)?;
        let seen = self.entries.next();
        match seen {
            Some(seen) => {
                self.read(seen, count)?;
                Ok(true)
            }
            None => Ok(false),
        }
    }

    /// Reads an entry that was taken off. It was the last of `count` entries.
    fn read(&mut self, seen: Seen<'a>, count: usize) -> Result<(), AllocError>
        ensures entries { OnOk result (self.new.entries ≡ self.old.entries) }
        ensures reads { OnOk result ((earlier : List Kept) (all : List Token) → AreBefore count (reverse self.old.opened.items) → count ≡ length (entries_of earlier)
            → Opens earlier seen.entry self.old.entries → Reads (record { entries = earlier; pieces = self.old.pieces; opened = self.old.opened }) all → Reads self.new all) }
    {
        match seen {
            Seen::Leaf(text) => {
                self.pieces.push(Piece::Leaf(text))?;
                Ok(())
            }
            Seen::Node(label, size) => {
                self.enter(label, count.saturating_sub(size))?;
                Ok(())
            }
            Seen::Away => Ok(()),
        }
    }

    /// Enters a node, whose kids come next.
    fn enter(&mut self, label: &'a [u8], begin: usize) -> Result<(), AllocError>
        ensures entries { OnOk result (self.new.entries ≡ self.old.entries) }
        ensures pieces { OnOk result (self.new.pieces.items ≡ self.old.pieces.items ++ Piece.Close ∷ []) }
        ensures opened { OnOk result ((node : OpenNode) × (self.new.opened.items ≡ self.old.opened.items ++ node ∷ []) × (node.label.now ≡ label.now) × (node.begin ≡ begin)) }
    {
        self.pieces.push(Piece::Close)?;
        self.opened.push(OpenNode { label, begin })?;
        Ok(())
    }

    /// Begins the open nodes in which none of the first `count` entries is, which are all that are left.
    fn begin_all(&mut self, count: usize) -> Result<(), AllocError>
        requires { count ≡ length (entries_of self.old.entries) }
        ensures entries { OnOk result (self.new.entries ≡ self.old.entries) }
        ensures reads { OnOk result ((all : List Token) → Reads self.old all → Reads self.new all) }
        ensures before { OnOk result (AreBefore count (reverse self.new.opened.items)) }
    {
        'nodes: loop {
            if !self.begin_last(count)? {
                return Ok(());
            }
        }
    }

    /// Begins the innermost open node if none of the first `count` entries is in it, and says whether it did.
    fn begin_last(&mut self, count: usize) -> Result<bool, AllocError>
        ensures entries { OnOk result (self.new.entries ≡ self.old.entries) }
        ensures reads { OnOk result (count ≡ length (entries_of self.old.entries) → (all : List Token) → Reads self.old all → Reads self.new all) }
        ensures fewer { IfOk result (λ more. more ≡ true → vec_len self.new.opened < vec_len self.old.opened) }
        ensures before { IfOk result (λ more. more ≡ false → AreBefore count (reverse self.new.opened.items)) }
    {
        match self.opened.pop() {
            Some(node) if node.begin >= count => {
                self.pieces.push(Piece::Open(node.label))?;
                Ok(true)
            }
            Some(node) => {
                self.opened.push(node)?;
                Ok(false)
            }
            None => Ok(false),
        }
    }
}
