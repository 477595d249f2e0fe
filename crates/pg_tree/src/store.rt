//! How the trees of a forest are stored.
//!
//! Nothing moves when trees are made into one: a node's entry is put after its kids, flattening marks nodes where they are, and a leaf that joins texts takes
//! over the bytes of all of them. So the cost of a call grows with what it adds or drops and with the number of trees it makes into one. Only `forest.rt`,
//! `tree.rt` and the code that writes JSON call this.

ghost use Rattle.std.specs.Prelude.{◌≡◌, ◌≤◌, ◌<◌, ◌+◌, ◌-◌, [], ◌∷◌, ◌++◌, take, drop, set, get_or, length, encode_utf8_all, false, IfOk, OnErr, OnOk};
ghost use Rattle.std.specs.Char.{encode_utf8};
ghost use Rattle.std.specs.Str.{bytes_eq};
ghost use Rattle.pg_tree.specs.Kept.{kept_leaf, kept_node, kepts_of, has_label, away_if, marked};
ghost use Rattle.pg_tree.specs.Stored.{kept_in, texts_of, Keeps, IsEndOf};
ghost use Rattle.pg_tree.specs.declared.entry.Entry.TheVariants.{Leaf, Node};

use crate::entry::{Entry, Extent};
use std::alloc::{AllocError, Global};

/// Trees: their entries, texts and labels, and how many trees there are.
#[derive(Drop)]
pub(crate) struct Store {
    pub(crate) entries: Vec<Entry>,
    pub(crate) texts: Vec<u8>,
    pub(crate) labels: Vec<u8>,
    pub(crate) roots: usize,
}

impl Store {
    /// No trees. It takes no memory.
    pub(crate) fn new(alloc: Global) -> Store
        ensures { Keeps result [] }
    {
        Store {
            entries: Vec::new(alloc),
            texts: Vec::new(alloc),
            labels: Vec::new(alloc),
            roots: 0,
        }
    }

    /// One leaf with these bytes.
    pub(crate) fn leaf(alloc: Global, text: &[u8]) -> Result<Store, AllocError>
        ensures { IfOk result (λ store. Keeps store (kept_leaf text.now ∷ [])) }
    {
        let mut entries = Vec::new(alloc);
        entries.push(Entry::leaf(text.len())?)?;
        Ok(Store {
            entries,
            texts: Vec::from_slice(alloc, text)?,
            labels: Vec::new(alloc),
            roots: 1,
        })
    }

    /// Appends a leaf with the UTF-8 text of these characters.
    pub(crate) fn push_leaf(&mut self, characters: &[char]) -> Result<(), AllocError>
        requires { Keeps self.old (kept_in self.old) }
        ensures ok { OnOk result (Keeps self.new (kept_in self.old ++ kept_leaf (encode_utf8_all characters.now) ∷ [])) }
        ensures err { OnErr result (Keeps self.new (kept_in self.old)) }
    {
        let before = self.texts.len();
        if push_characters(&mut self.texts, characters).is_err() {
            self.texts.truncate(before);
            return Err(AllocError);
        }
        if push_leaf_entry(&mut self.entries, self.texts.len() - before).is_err() {
            self.texts.truncate(before);
            return Err(AllocError);
        }
        self.roots += 1;
        Ok(())
    }

    /// Appends the trees of another store. If this one is empty, it takes the other over.
    pub(crate) fn append(&mut self, other: Store) -> Result<(), AllocError>
        requires kept { Keeps self.old (kept_in self.old) }
        requires other { Keeps other (kept_in other) }
        ensures ok { OnOk result (Keeps self.new (kept_in self.old ++ kept_in other)) }
        ensures err { OnErr result (Keeps self.new (kept_in self.old)) }
    {
        if self.roots == 0 {
            *self = other;
            return Ok(());
        }
        self.extend(&other)
    }

    /// Appends copies of the trees of another store.
    fn extend(&mut self, other: &Store) -> Result<(), AllocError>
        requires kept { Keeps self.old (kept_in self.old) }
        requires other { Keeps other.now (kept_in other.now) }
        ensures ok { OnOk result (Keeps self.new (kept_in self.old ++ kept_in other.now)) }
        ensures err { OnErr result (Keeps self.new (kept_in self.old)) }
    {
        let (entries, texts) = (self.entries.len(), self.texts.len());
        self.entries.extend_from_slice(other.entries.as_slice())?;
        if self
            .texts
            .extend_from_slice(other.texts.as_slice())
            .is_err()
        {
            self.entries.truncate(entries);
            return Err(AllocError);
        }
        if self
            .labels
            .extend_from_slice(other.labels.as_slice())
            .is_err()
        {
            self.entries.truncate(entries);
            self.texts.truncate(texts);
            return Err(AllocError);
        }
        self.roots += other.roots;
        Ok(())
    }

    /// Makes the trees after the first `count` the kids of one node with a copy of this label. They stay where they are; a pass over them finds where they
    /// begin.
    pub(crate) fn wrap(&mut self, label: &str, count: usize) -> Result<(), AllocError>
        requires kept { Keeps self.old (kept_in self.old) }
        requires within { count ≤ length (kept_in self.old) }
        ensures ok { OnOk result (Keeps self.new (take count (kept_in self.old) ++ kept_node false label.now (kepts_of (drop count (kept_in self.old))) ∷ [])) }
        ensures err { OnErr result (Keeps self.new (kept_in self.old)) }
    {
        let begin = self.end_of(count);
        let entry = self.head(label.len(), begin)?;
        let before = self.labels.len();
        self.labels.extend_from_slice(label.as_bytes())?;
        if self.entries.push(entry).is_err() {
            self.labels.truncate(before);
            return Err(AllocError);
        }
        self.roots = count + 1;
        Ok(())
    }

    /// Makes the trees after the first `count` into one leaf with the texts of all their leaves, which stay where they are. If memory runs out, those trees
    /// are gone.
    pub(crate) fn join(&mut self, count: usize) -> Result<(), AllocError>
        requires kept { Keeps self.old (kept_in self.old) }
        requires within { count ≤ length (kept_in self.old) }
        ensures ok { OnOk result (Keeps self.new (take count (kept_in self.old) ++ kept_leaf (texts_of (drop count (kept_in self.old))) ∷ [])) }
        ensures err { OnErr result (Keeps self.new (take count (kept_in self.old))) }
    {
        let begin = self.end_of(count);
        let bytes = self.texts.len() - begin.texts;
        self.entries.truncate(begin.entries);
        self.labels.truncate(begin.labels);
        if push_leaf_entry(&mut self.entries, bytes).is_err() {
            self.texts.truncate(begin.texts);
            self.roots = count;
            return Err(AllocError);
        }
        self.roots = count + 1;
        Ok(())
    }

    /// Marks each node with this label among the trees after the first `count` as taken away, so that its kids stand in its place.
    pub(crate) fn mark(&mut self, label: &str, count: usize)
        requires kept { Keeps self.old (kept_in self.old) }
        requires within { count ≤ length (kept_in self.old) }
        ensures { Keeps self.new (take count (kept_in self.old) ++ marked label.now (drop count (kept_in self.old))) }
    {
        let mut end = self.end();
        let mut left = self.roots;
        while left > count {
            left -= 1;
            let begin = self.begin_of(left, end);
            self.mark_one(left, end, label);
            end = begin;
        }
    }

    /// Marks the tree with this index as taken away, if it is a node with this label. The tree ends at `end`.
    fn mark_one(&mut self, index: usize, end: Extent, label: &str)
        requires kept { Keeps self.old (kept_in self.old) }
        requires ends { IsEndOf (kept_in self.old) (index + 1) end }
        ensures { Keeps self.new (set (kept_in self.old) index
            (away_if (has_label label.now (get_or (kept_in self.old) index (kept_leaf []))) (get_or (kept_in self.old) index (kept_leaf [])))) }
    {
        if self.is_labelled(index, end, label) {
            let last = end.entries - 1;
            self.entries[last] = self.entries[last].put_away();
        }
    }

    /// Drops the trees after the first `count`.
    pub(crate) fn cut(&mut self, count: usize)
        requires kept { Keeps self.old (kept_in self.old) }
        requires within { count ≤ length (kept_in self.old) }
        ensures { Keeps self.new (take count (kept_in self.old)) }
    {
        let end = self.end_of(count);
        self.entries.truncate(end.entries);
        self.texts.truncate(end.texts);
        self.labels.truncate(end.labels);
        self.roots = count;
    }

    /// A copy of the trees after the first `count`.
    pub(crate) fn copy_after(&self, alloc: Global, count: usize) -> Result<Store, AllocError>
        requires kept { Keeps self.now (kept_in self.now) }
        requires within { count ≤ length (kept_in self.now) }
        ensures { IfOk result (λ store. Keeps store (drop count (kept_in self.now))) }
    {
        let end = self.end_of(count);
        Ok(Store {
            entries: copy_from(alloc, self.entries.as_slice(), end.entries)?,
            texts: copy_from(alloc, self.texts.as_slice(), end.texts)?,
            labels: copy_from(alloc, self.labels.as_slice(), end.labels)?,
            roots: self.roots - count,
        })
    }

    /// Asks for `times` times the memory of the trees after the first `count` with a node above them, as one piece for each list.
    pub(crate) fn reserve(&mut self, count: usize, times: usize) -> Result<(), AllocError>
        requires kept { Keeps self.old (kept_in self.old) }
        requires within { count ≤ length (kept_in self.old) }
        ensures { Keeps self.new (kept_in self.old) }
    {
        let size = self.size_after(count);
        let entries = product(size.entries.saturating_add(1), times)?;
        let texts = product(size.texts, times)?;
        let labels = product(size.labels, times)?;
        self.entries.reserve(entries)?;
        self.texts.reserve(texts)?;
        self.labels.reserve(labels)?;
        Ok(())
    }

    /// The size of the trees after the first `count`.
    fn size_after(&self, count: usize) -> Extent
        requires kept { Keeps self.now (kept_in self.now) }
        requires within { count ≤ length (kept_in self.now) }
    {
        let begin = self.end_of(count);
        Extent {
            entries: self.entries.len() - begin.entries,
            texts: self.texts.len() - begin.texts,
            labels: self.labels.len() - begin.labels,
        }
    }

    /// The entry of a node with a label of this many bytes, whose kids begin at `begin`.
    fn head(&self, label: usize, begin: Extent) -> Result<Entry, AllocError>
        requires entries { begin.entries ≤ length self.now.entries.items }
        requires texts { begin.texts ≤ length self.now.texts.items }
        requires labels { begin.labels ≤ length self.now.labels.items }
        ensures { IfOk result (λ entry. entry ≡ Node false label (length self.now.texts.items - begin.texts)
            (length self.now.entries.items + 1 - begin.entries) (length self.now.labels.items - begin.labels + label)) }
    {
        let entries = self.entries.len() + 1 - begin.entries;
        let texts = self.texts.len() - begin.texts;
        let labels = self.labels.len() - begin.labels;
        match labels.checked_add(label) {
            Some(labels) => Entry::node(label, texts, entries, labels),
            None => Err(AllocError),
        }
    }

    /// Where the last tree ends.
    fn end(&self) -> Extent
        requires { Keeps self.now (kept_in self.now) }
        ensures { IsEndOf (kept_in self.now) (length (kept_in self.now)) result }
    {
        Extent {
            entries: self.entries.len(),
            texts: self.texts.len(),
            labels: self.labels.len(),
        }
    }

    /// Where the first `count` trees end.
    fn end_of(&self, count: usize) -> Extent
        requires kept { Keeps self.now (kept_in self.now) }
        requires within { count ≤ length (kept_in self.now) }
        ensures { IsEndOf (kept_in self.now) count result }
    {
        // So making all trees into one, or dropping them, needs no pass over them.
        if count == 0 {
            return Extent {
                entries: 0,
                texts: 0,
                labels: 0,
            };
        }
        let mut end = self.end();
        let mut left = self.roots;
        while left > count {
            left -= 1;
            end = self.begin_of(left, end);
        }
        end
    }

    /// Where the tree with this index begins. It ends at `end`.
    fn begin_of(&self, index: usize, end: Extent) -> Extent
        requires kept { Keeps self.now (kept_in self.now) }
        requires ends { IsEndOf (kept_in self.now) (index + 1) end }
        ensures { IsEndOf (kept_in self.now) index result }
    {
        let size = self.entries[end.entries - 1].extent();
        Extent {
            entries: end.entries - size.entries,
            texts: end.texts - size.texts,
            labels: end.labels - size.labels,
        }
    }

    /// Whether the tree with this index is a node with this label. The tree ends at `end`.
    fn is_labelled(&self, index: usize, end: Extent, label: &str) -> bool
        requires kept { Keeps self.now (kept_in self.now) }
        requires ends { IsEndOf (kept_in self.now) (index + 1) end }
        ensures { result ≡ has_label label.now (get_or (kept_in self.now) index (kept_leaf [])) }
    {
        match self.entries[end.entries - 1] {
            Entry::Leaf(_) => false,
            Entry::Node { label: own, .. } => {
                let begin = end.labels - own as usize;
                are_bytes(self.labels.as_slice(), begin, end.labels, label.as_bytes())
            }
        }
    }
}

/// Whether the bytes from one index to another are these.
fn are_bytes(all: &[u8], from: usize, to: usize, bytes: &[u8]) -> bool
    requires order { from ≤ to }
    requires within { to ≤ length all.now }
    ensures { result ≡ bytes_eq (take (to - from) (drop from all.now)) bytes.now }
{
    &all[from..to] == bytes
}

/// Appends the entry of a leaf with this many bytes. The only error is running out of memory, or too many bytes to count.
fn push_leaf_entry(entries: &mut Vec<Entry>, bytes: usize) -> Result<(), AllocError>
    ensures ok { OnOk result (entries.new.items ≡ entries.old.items ++ Leaf bytes ∷ []) }
    ensures err { OnErr result (entries.new.items ≡ entries.old.items) }
{
    let entry = Entry::leaf(bytes)?;
    entries.push(entry)?;
    Ok(())
}

/// A copy of the items from index `from` on.
fn copy_from<T: Copy>(alloc: Global, items: &[T], from: usize) -> Result<Vec<T>, AllocError>
    requires { from ≤ length items.now }
    ensures { IfOk result (λ copy. copy.items ≡ drop from items.now) }
{
    Vec::from_slice(alloc, &items[from..])
}

/// The product. The only error is that it doesn't fit; that much counts as out of memory.
fn product(size: usize, times: usize) -> Result<usize, AllocError> {
    size.checked_mul(times).ok_or(AllocError)
}

/// Appends the UTF-8 text of these characters to some bytes.
fn push_characters(bytes: &mut Vec<u8>, characters: &[char]) -> Result<(), AllocError>
    ensures ok { OnOk result (bytes.new.items ≡ bytes.old.items ++ encode_utf8_all characters.now) }
    ensures grows { take (length bytes.old.items) bytes.new.items ≡ bytes.old.items }
{
    for character in characters {
        push_character(bytes, *character)?;
    }
    Ok(())
}

/// Appends the UTF-8 text of a character. One of ASCII is its own byte.
fn push_character(bytes: &mut Vec<u8>, character: char) -> Result<(), AllocError>
    ensures ok { OnOk result (bytes.new.items ≡ bytes.old.items ++ encode_utf8 character) }
    ensures err { OnErr result (bytes.new.items ≡ bytes.old.items) }
{
    if character < '\u{80}' {
        bytes.push(character as u8)?;
    } else {
        bytes.extend_from_slice(character.encode_utf8(&mut [0; 4]).as_bytes())?;
    }
    Ok(())
}
