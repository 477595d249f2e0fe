//! The entries of a forest, read from the last to the first without keeping those that were read.
//!
//! A node stands after its kids, so it is read before them, and the number of entries in its tree says how far they reach. The code that shows trees to
//! people relies on it.

ghost use Rattle.std.specs.Prelude.{◌≡◌, ◌-◌, [], take, drop, length, MatchOption};
ghost use Rattle.std.specs.Option.{IfNone};
ghost use Rattle.pg_tree.specs.Stored.{entries_of, kept_in, Keeps};
ghost use Rattle.pg_tree.specs.Entries.{Opens, IsSeenAs};

use crate::entry::Entry;
use crate::store::Store;
use std::marker::Model;

/// What an entry shows (ours).
#[derive(Clone, Copy)]
pub enum Seen<'a> {
    /// A leaf, with its text in UTF-8.
    Leaf(&'a [u8]),
    /// A node, with its label in UTF-8 and the number of entries in its tree: its own, and those that are read next.
    Node(&'a [u8], usize),
    /// A node that isn't shown because its kids stand in its place.
    Away,
}

/// The entries of a forest that are still to be read, seen as the trees that they make up (ours).
#[derive(Drop)]
pub struct Entries<'a> {
    entries: &'a [Entry],
    texts: &'a [u8],
    labels: &'a [u8],
}

impl<'a> Model for Entries<'a> {
    ghost use Rattle.std.specs.Prelude.{List, length};
    ghost use Rattle.std.specs.Coded.{coded_list};
    ghost use Rattle.pg_tree.specs.Kept.{Kept};
    ghost use Rattle.pg_tree.specs.Stored.{shown, IsStored};
    ghost use Rattle.pg_tree.specs.Entries.{kept_code};

    ghost Value = { List Kept };

    ghost coded = { coded_list kept_code };

    ghost view = { λ e. shown e.entries.now e.texts.now e.labels.now };

    ghost invariant = { λ e. IsStored e.entries.now e.texts.now e.labels.now (length (shown e.entries.now e.texts.now e.labels.now))
        (shown e.entries.now e.texts.now e.labels.now) };
}

impl<'a> Entries<'a> {
    /// All entries of the trees in a store.
    pub(crate) fn of(store: &'a Store) -> Entries<'a>
        requires { Keeps store.now (kept_in store.now) }
        ensures { result ≡ kept_in store.now }
    {
        Entries {
            entries: store.entries.as_slice(),
            texts: store.texts.as_slice(),
            labels: store.labels.as_slice(),
        }
    }

    /// How many entries are still to be read (ours). It takes no memory.
    pub fn len(&self) -> usize
        ensures { result ≡ length (entries_of self.now) }
    {
        self.entries.len()
    }

    /// Reads the next entry, from the last to the first; none if all have been read (ours). A node comes before its kids, the last kid first. It takes no
    /// memory.
    pub fn next(&mut self) -> Option<Seen<'a>>
        ensures last { MatchOption result (self.old ≡ []) (λ seen. Opens self.old seen self.new) }
        ensures ends { IfNone result (self.new ≡ []) }
    {
        let count = self.entries.len();
        if count == 0 {
            return None;
        }
        let entry = self.entries[count - 1];
        let (texts, labels) = (self.texts, self.labels);
        self.entries = &self.entries[..count - 1];
        self.texts = before_last(texts, entry.own_text());
        self.labels = before_last(labels, entry.own_label());
        Some(seen_of(
            entry,
            last(texts, entry.own_text()),
            last(labels, entry.own_label()),
        ))
    }
}

/// What an entry with this text or this label shows.
fn seen_of<'a>(entry: Entry, text: &'a [u8], label: &'a [u8]) -> Seen<'a>
    ensures { IsSeenAs result entry text.now label.now }
{
    match entry {
        Entry::Leaf(_) => Seen::Leaf(text),
        Entry::Node { away: true, .. } => Seen::Away,
        Entry::Node {
            away: false,
            entries,
            ..
        } => Seen::Node(label, entries),
    }
}

/// The bytes but for the last `count`.
fn before_last(bytes: &[u8], count: usize) -> &[u8]
    ensures { result.now ≡ take (length bytes.now - count) bytes.now }
{
    &bytes[..bytes.len().saturating_sub(count)]
}

/// The last `count` bytes.
fn last(bytes: &[u8], count: usize) -> &[u8]
    ensures { result.now ≡ drop (length bytes.now - count) bytes.now }
{
    &bytes[bytes.len().saturating_sub(count)..]
}
