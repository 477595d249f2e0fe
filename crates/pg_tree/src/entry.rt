//! The leaves and nodes of trees as entries of one list.
//!
//! A list of trees is stored in postorder, so a node stands after its kids and nothing has to recurse. The texts of the leaves stand in one list of bytes and
//! the labels of the nodes in another, both in the order of the entries. So the texts of adjacent trees are one slice. specs/Stored.antt says which trees
//! entries, texts and labels stand for.

ghost use Rattle.std.specs.Prelude.{◌≡◌, ◌≤◌, false, IfOk};
ghost use Rattle.pg_tree.specs.Stored.{extent_of, own_text, own_label, entry_away};
ghost use Rattle.pg_tree.specs.Written.{opening, has_some, begins, still, ended};
ghost use Rattle.pg_tree.specs.declared.entry.Entry.TheVariants.{Leaf, Node};

use std::alloc::AllocError;

/// A leaf or a node. A number has as few bits as its greatest value within the limits needs, so an entry takes 24 bytes: texts of a tree are parts of one
/// text, and a label is one literal. Entries and labels of a tree may pass 32 bits.
#[derive(Clone, Copy)]
pub(crate) enum Entry {
    /// A leaf, with the length of its text in bytes.
    Leaf(u32),
    /// A node.
    Node {
        /// Whether flattening took it away, so that its kids stand in its place.
        away: bool,
        /// The length of the label in bytes.
        label: u16,
        /// How many bytes the texts in its tree have.
        texts: u32,
        /// How many entries its tree has, this one among them.
        entries: usize,
        /// How many bytes the labels in its tree have, with this one.
        labels: usize,
    },
}

/// A number of entries and of bytes of texts and labels: how large a tree is, or where it ends.
#[derive(Clone, Copy)]
pub(crate) struct Extent {
    pub(crate) entries: usize,
    pub(crate) texts: usize,
    pub(crate) labels: usize,
}

impl Entry {
    /// A leaf with a text of this many bytes. The only error is that the number doesn't fit in 32 bits, which no part of a text within the limit reaches.
    pub(crate) fn leaf(bytes: usize) -> Result<Entry, AllocError>
        ensures { IfOk result (λ entry. entry ≡ Leaf bytes) }
    {
        Ok(Entry::Leaf(counted(bytes)?))
    }

    /// A node with a label of this many bytes, for a tree with this many bytes of texts, entries and bytes of labels. The only error is that the label doesn't
    /// fit in 16 bits or the texts don't in 32, which no grammar and no text within the limits reaches.
    pub(crate) fn node(
        label: usize,
        texts: usize,
        entries: usize,
        labels: usize,
    ) -> Result<Entry, AllocError>
        ensures { IfOk result (λ entry. entry ≡ Node false label texts entries labels) }
    {
        Ok(Entry::Node {
            away: false,
            label: counted_short(label)?,
            texts: counted(texts)?,
            entries,
            labels,
        })
    }

    /// The size of the tree whose last entry this is.
    pub(crate) fn extent(self) -> Extent
        ensures { result ≡ extent_of self }
    {
        match self {
            Entry::Leaf(bytes) => Extent {
                entries: 1,
                texts: bytes as usize,
                labels: 0,
            },
            Entry::Node {
                entries,
                texts,
                labels,
                ..
            } => Extent {
                entries,
                texts: texts as usize,
                labels,
            },
        }
    }

    /// This node marked as taken away; a leaf stays.
    pub(crate) fn put_away(self) -> Entry
        ensures { result ≡ entry_away self }
    {
        match self {
            Entry::Leaf(bytes) => Entry::Leaf(bytes),
            Entry::Node {
                label,
                entries,
                texts,
                labels,
                ..
            } => Entry::Node {
                away: true,
                label,
                entries,
                texts,
                labels,
            },
        }
    }

    /// The length of its own text in bytes.
    pub(crate) fn own_text(self) -> usize
        ensures { result ≡ own_text self }
    {
        match self {
            Entry::Leaf(bytes) => bytes as usize,
            Entry::Node { .. } => 0,
        }
    }

    /// The length of its own label in bytes.
    pub(crate) fn own_label(self) -> usize
        ensures { result ≡ own_label self }
    {
        match self {
            Entry::Leaf(_) => 0,
            Entry::Node { label, .. } => label as usize,
        }
    }

    /// How many shown nodes this entry makes begin at the start of its tree: 1 or 0.
    pub(crate) fn opening(self) -> usize
        ensures value { result ≡ opening self }
        ensures small { result ≤ 1 }
    {
        match self {
            Entry::Leaf(_) => 0,
            Entry::Node { away: true, .. } => 0,
            Entry::Node { away: false, .. } => 1,
        }
    }

    /// Whether a shown tree begins at it, if this many nodes begin there.
    pub(crate) fn begins(self, nodes: usize) -> bool
        ensures { result ≡ begins nodes self }
    {
        match self {
            Entry::Leaf(_) => true,
            Entry::Node { .. } => has_some(nodes),
        }
    }

    /// Whether a tree ended before what follows this entry's text. This many nodes begin before that text, and `later` says whether a tree ended before them.
    pub(crate) fn ended(self, later: bool, nodes: usize) -> bool
        ensures { result ≡ ended (still later nodes) self }
    {
        match self {
            Entry::Leaf(_) => true,
            Entry::Node { away: true, .. } => still(later, nodes),
            Entry::Node { away: false, .. } => true,
        }
    }
}

/// Whether the count isn't 0.
fn has_some(nodes: usize) -> bool
    ensures { result ≡ has_some nodes }
{
    match nodes {
        0 => false,
        _ => true,
    }
}

/// Whether a tree ended before what follows the opening texts of this many nodes.
fn still(later: bool, nodes: usize) -> bool
    ensures { result ≡ still later nodes }
{
    match nodes {
        0 => later,
        _ => false,
    }
}

/// The number in 16 bits. The only error is that it doesn't fit; that many bytes count as out of memory.
fn counted_short(number: usize) -> Result<u16, AllocError>
    ensures { IfOk result (λ count. count ≡ number) }
{
    match u16::try_from(number) {
        Ok(count) => Ok(count),
        Err(_) => Err(AllocError),
    }
}

/// The number in 32 bits. The only error is that it doesn't fit; that many bytes count as out of memory.
fn counted(number: usize) -> Result<u32, AllocError>
    ensures { IfOk result (λ count. count ≡ number) }
{
    match u32::try_from(number) {
        Ok(count) => Ok(count),
        Err(_) => Err(AllocError),
    }
}
