//! How the trees of a forest are kept: as the steps that make them.

ghost use Rattle.std.specs.Prelude.{◌≡◌, ◌≤◌, ◌<◌, ◌+◌, ◌++◌, ◌∷◌, [], true, false, length, drop, take, encode_utf8_all, IfOk, IfSome, OnOk, OnErr};
ghost use Rattle.pg_tree.specs.Trees.{leaf, node, no_trees, tree, kids_of};
ghost use Rattle.pg_tree.specs.Built.{kids_text};
ghost use Rattle.pg_tree_placed.specs.Made.{made, trees_in, kids_taken, tree_made, kids_if, IsNamed, with_entry, Fits, IsWhole, IsPlacedAt, IsNodeOf, IsSingle};
ghost use Rattle.pg_tree_placed.specs.Named.{IsNumber, label_at};

use crate::entry::Entry;
use crate::labels::{Guesses, number_of};
use crate::steps::{leaf_of, node_of, placed_single, push_entry, put_last, single_of};
use pg_tree::Label;
use std::alloc::{AllocError, Global};

/// Trees over a text: the steps that make them, and how many trees there are.
#[derive(Drop)]
pub(crate) struct Store<'a> {
    pub(crate) alloc: Global,
    pub(crate) text: &'a [char],
    pub(crate) labels: Vec<Label>,
    pub(crate) guesses: Guesses,
    pub(crate) entries: Vec<Entry>,
    pub(crate) roots: usize,
}

impl<'a> Store<'a> {
    /// No trees.
    pub(crate) fn new(alloc: Global, text: &'a [char]) -> Store<'a>
        ensures none { made result ≡ [] }
        ensures whole { IsWhole result }
    {
        Store {
            alloc,
            text,
            labels: Vec::new(alloc),
            guesses: Guesses::new(),
            entries: Vec::new(alloc),
            roots: 0,
        }
    }

    /// Asks for memory for the steps of most texts: few take more than two for a character, and what isn't used costs nothing.
    pub(crate) fn reserve(&mut self) -> Result<(), AllocError>
        requires { IsWhole self.old }
        ensures same { made self.new ≡ made self.old }
        ensures whole { IsWhole self.new }
    {
        self.entries.reserve(self.text.len().saturating_mul(2))
    }

    /// Appends a leaf of these characters, if they stand in the text from this place on. Says whether it did.
    #[tactic(auto, using(crate::proofs::Making::leaf_more, crate::proofs::Making::leaf_fits, crate::proofs::Making::leaf_counts))]
    pub(crate) fn push_leaf(&mut self, characters: &[char], from: usize) -> Result<bool, AllocError>
        requires { IsWhole self.old }
        ensures done { IfOk result (λ done. done ≡ true → trees_in self.new ≡ trees_in self.old ++ leaf (encode_utf8_all characters.now) ∷ []) }
        ensures stays { IfOk result (λ done. done ≡ false → trees_in self.new ≡ trees_in self.old) }
        ensures err { OnErr result (trees_in self.new ≡ trees_in self.old) }
        ensures whole { IsWhole self.new }
    {
        match self.ready_leaf(characters, from) {
            Some(entry) => self.push_tree(entry),
            None => self.push_any(characters, from),
        }
    }

    /// The same for leaves of any length, and where room for a step has to be made.
    #[inline(never)]
    #[tactic(auto, using(crate::proofs::Making::leaf_more, crate::proofs::Making::leaf_fits, crate::proofs::Making::leaf_counts))]
    fn push_any(&mut self, characters: &[char], from: usize) -> Result<bool, AllocError>
        requires { IsWhole self.old }
        ensures done { IfOk result (λ done. done ≡ true → trees_in self.new ≡ trees_in self.old ++ leaf (encode_utf8_all characters.now) ∷ []) }
        ensures stays { IfOk result (λ done. done ≡ false → trees_in self.new ≡ trees_in self.old) }
        ensures err { OnErr result (trees_in self.new ≡ trees_in self.old) }
        ensures whole { IsWhole self.new }
    {
        let Some(entry) = leaf_of(self.text, characters, from) else {
            return Ok(false);
        };
        self.push_tree(entry)
    }

    /// Appends a node with this label around a leaf of these characters, if they stand in the text from this place on. Says whether it did.
    pub(crate) fn push_single(
        &mut self,
        label: &str,
        characters: &[char],
        from: usize,
    ) -> Result<bool, AllocError>
        requires { IsWhole self.old }
        ensures done { IfOk result (λ done. done ≡ true → trees_in self.new ≡ trees_in self.old ++ node label.now (tree (leaf (encode_utf8_all characters.now)) no_trees) ∷ []) }
        ensures whole { IsWhole self.new }
    {
        match self.around_ready(label, characters, from) {
            Some(entry) => self.push_tree(entry),
            None => self.push_around(label, characters, from),
        }
    }

    /// The same for labels and leaves of any length, and where room for a step has to be made.
    #[inline(never)]
    fn push_around(
        &mut self,
        label: &str,
        characters: &[char],
        from: usize,
    ) -> Result<bool, AllocError>
        requires { IsWhole self.old }
        ensures done { IfOk result (λ done. done ≡ true → trees_in self.new ≡ trees_in self.old ++ node label.now (tree (leaf (encode_utf8_all characters.now)) no_trees) ∷ []) }
        ensures whole { IsWhole self.new }
    {
        match self.around_leaf(label, characters, from) {
            Some(entry) => self.push_tree(entry),
            None => self.push_wrapped(label, characters, from),
        }
    }

    /// The same in two steps, where the label's number isn't known at once or doesn't fit into one.
    #[inline(never)]
    fn push_wrapped(
        &mut self,
        label: &str,
        characters: &[char],
        from: usize,
    ) -> Result<bool, AllocError>
        requires { IsWhole self.old }
        ensures done { IfOk result (λ done. done ≡ true → trees_in self.new ≡ trees_in self.old ++ node label.now (tree (leaf (encode_utf8_all characters.now)) no_trees) ∷ []) }
        ensures whole { IsWhole self.new }
    {
        let count = self.roots;
        if self.push_leaf(characters, from)? {
            self.wrap(label, false, count)
        } else {
            Ok(false)
        }
    }

    /// The number of a label, if it is short and the one that was noted, and there is room for a step.
    #[inline(always)]
    fn ready_number(&self, label: &str) -> Option<usize>
        ensures { IfSome result (λ n. IsNumber self.now.labels.items n label.now) }
    {
        if self.is_full() {
            return None;
        }
        self.guesses.short_number(self.labels.as_slice(), label)
    }

    /// Whether there is no room for a step.
    #[inline(always)]
    fn is_full(&self) -> bool {
        self.entries.len() == self.entries.capacity()
    }

    /// The leaf of one character, if it stands there and there is room for a step.
    #[inline(always)]
    fn ready_leaf(&self, characters: &[char], from: usize) -> Option<Entry>
        ensures { IfSome result (IsPlacedAt self.now.text.now characters.now) }
    {
        if self.is_full() || characters.len() != 1 {
            return None;
        }
        leaf_of(self.text, characters, from)
    }

    /// The step that makes a node with this label around the leaf of one character, if that is ready, and the label's number too.
    #[inline(always)]
    fn around_ready(&self, label: &str, characters: &[char], from: usize) -> Option<Entry>
        ensures { IfSome result (λ entry. IsNodeOf self.now.labels.items label.now self.now.text.now characters.now entry) }
    {
        if characters.len() != 1 {
            return None;
        }
        let number = self.ready_number(label)?;
        placed_single(number, self.text, characters, from)
    }

    /// The step that makes a node with this label around a leaf of these characters, if they stand there and the label's number is the one that was noted.
    fn around_leaf(&self, label: &str, characters: &[char], from: usize) -> Option<Entry>
        ensures { IfSome result (λ entry. IsNodeOf self.now.labels.items label.now self.now.text.now characters.now entry) }
    {
        let number = self.guesses.number(self.labels.as_slice(), label)?;
        placed_single(number, self.text, characters, from)
    }

    /// Makes a step that takes no trees.
    #[inline(always)]
    #[tactic(auto, using(crate::proofs::Making::with_none))]
    fn push_tree(&mut self, entry: Entry) -> Result<bool, AllocError>
        requires whole { IsWhole self.old }
        requires fits { IsNamed self.old.labels.items entry }
        requires none { kids_taken entry ≡ 0 }
        ensures done { IfOk result (λ done. done ≡ true → made self.new ≡ tree_made self.old.text.now self.old.labels.items no_trees entry ∷ made self.old) }
        ensures stays { IfOk result (λ done. done ≡ false → made self.new ≡ made self.old) }
        ensures err { OnErr result (made self.new ≡ made self.old) }
        ensures whole { IsWhole self.new }
    {
        let roots = self.roots + 1;
        self.push(entry, roots)?;
        Ok(true)
    }

    /// Makes a step, after which there are so many trees.
    #[inline(always)]
    fn push(&mut self, entry: Entry, roots: usize) -> Result<(), AllocError>
        requires whole { IsWhole self.old }
        requires fits { Fits self.old.labels.items (made self.old) entry }
        requires roots { roots ≡ length (with_entry self.old.text.now self.old.labels.items (made self.old) entry) }
        ensures ok { OnOk result (made self.new ≡ with_entry self.old.text.now self.old.labels.items (made self.old) entry) }
        ensures err { OnErr result (made self.new ≡ made self.old) }
        ensures whole { IsWhole self.new }
    {
        push_entry(&mut self.entries, entry)?;
        self.roots = roots;
        Ok(())
    }

    /// The number of a label, which is put at the end where it isn't there yet.
    fn number(&mut self, label: &str) -> Result<usize, AllocError>
        requires { IsWhole self.old }
        ensures number { IfOk result (λ n. IsNumber self.new.labels.items n label.now) }
        ensures same { made self.new ≡ made self.old }
        ensures whole { IsWhole self.new }
    {
        number_of(self.alloc, &mut self.labels, label)
    }

    /// Makes the trees after the first `count` into one by this step. It takes just these, and its label is there.
    #[inline(always)]
    #[tactic(auto, using(crate::proofs::Making::wrapped))]
    fn make(&mut self, entry: Entry, count: usize) -> Result<bool, AllocError>
        requires whole { IsWhole self.old }
        requires kids { count + kids_taken entry ≡ length (made self.old) }
        requires named { IsNamed self.old.labels.items entry }
        ensures done { IfOk result (λ done. done ≡ true → trees_in self.new
            ≡ take count (trees_in self.old) ++ tree_made self.old.text.now self.old.labels.items (kids_of (drop count (trees_in self.old))) entry ∷ []) }
        ensures stays { IfOk result (λ done. done ≡ false → trees_in self.new ≡ trees_in self.old) }
        ensures err { OnErr result (trees_in self.new ≡ trees_in self.old) }
        ensures whole { IsWhole self.new }
    {
        let roots = count + 1;
        self.push(entry, roots)?;
        Ok(true)
    }

    /// Makes the trees after the first `count` the kids of one node with this label, or flattened ones. Says whether it did; too many to count are left as they
    /// are.
    pub(crate) fn wrap(
        &mut self,
        label: &str,
        is_flat: bool,
        count: usize,
    ) -> Result<bool, AllocError>
        requires whole { IsWhole self.old }
        requires within { count ≤ length (made self.old) }
        ensures done { IfOk result (λ done. done ≡ true → trees_in self.new ≡ take count (trees_in self.old) ++ node label.now (kids_if is_flat label.now (kids_of (drop count (trees_in self.old)))) ∷ []) }
        ensures whole { IsWhole self.new }
    {
        match self.ready_number(label) {
            Some(number) => self.wrap_numbered(number, is_flat, count),
            None => self.wrap_named(label, is_flat, count),
        }
    }

    /// The same where the label's number has to be looked for, or room for a step made.
    #[inline(never)]
    fn wrap_named(&mut self, label: &str, is_flat: bool, count: usize) -> Result<bool, AllocError>
        requires whole { IsWhole self.old }
        requires within { count ≤ length (made self.old) }
        ensures done { IfOk result (λ done. done ≡ true → trees_in self.new ≡ take count (trees_in self.old) ++ node label.now (kids_if is_flat label.now (kids_of (drop count (trees_in self.old)))) ∷ []) }
        ensures whole { IsWhole self.new }
    {
        if let Some(number) = self.guesses.number(self.labels.as_slice(), label) {
            return self.wrap_numbered(number, is_flat, count);
        }
        let number = self.number(label)?;
        self.guesses.note(label, number);
        self.wrap_numbered(number, is_flat, count)
    }

    /// The same, by the label's number.
    #[inline(always)]
    fn wrap_numbered(
        &mut self,
        number: usize,
        is_flat: bool,
        count: usize,
    ) -> Result<bool, AllocError>
        requires whole { IsWhole self.old }
        requires there { number < length self.old.labels.items }
        requires within { count ≤ length (made self.old) }
        ensures done { IfOk result (λ done. done ≡ true → trees_in self.new
            ≡ take count (trees_in self.old) ++ node (label_at self.old.labels.items number) (kids_if is_flat (label_at self.old.labels.items number) (kids_of (drop count (trees_in self.old)))) ∷ []) }
        ensures whole { IsWhole self.new }
    {
        match self.single(number, count) {
            Some(entry) => {
                put_last(&mut self.entries, entry);
                Ok(true)
            }
            None => self.wrap_by(number, is_flat, count),
        }
    }

    /// The same by a step more.
    #[inline(always)]
    fn wrap_by(&mut self, number: usize, is_flat: bool, count: usize) -> Result<bool, AllocError>
        requires whole { IsWhole self.old }
        requires there { number < length self.old.labels.items }
        requires within { count ≤ length (made self.old) }
        ensures done { IfOk result (λ done. done ≡ true → trees_in self.new
            ≡ take count (trees_in self.old) ++ node (label_at self.old.labels.items number) (kids_if is_flat (label_at self.old.labels.items number) (kids_of (drop count (trees_in self.old)))) ∷ []) }
        ensures whole { IsWhole self.new }
    {
        match node_of(number, self.roots - count, is_flat) {
            Some(entry) => self.make(entry, count),
            None => Ok(false),
        }
    }

    /// The step that makes a node with the label of this number around the last tree, if that is a leaf and the only tree after the first `count`.
    #[inline(always)]
    fn single(&self, number: usize, count: usize) -> Option<Entry>
        requires { count ≤ self.now.roots }
        ensures { IfSome result (IsSingle self.now number count) }
    {
        if self.roots - count != 1 {
            return None;
        }
        single_of(number, *self.entries.last()?)
    }

    /// Makes the trees after the first `count` into one leaf of all their texts. Says whether it did; too many to count are left as they are.
    pub(crate) fn join(&mut self, count: usize) -> Result<bool, AllocError>
        requires whole { IsWhole self.old }
        requires within { count ≤ length (made self.old) }
        ensures done { IfOk result (λ done. done ≡ true → trees_in self.new ≡ take count (trees_in self.old) ++ leaf (kids_text (kids_of (drop count (trees_in self.old)))) ∷ []) }
        ensures whole { IsWhole self.new }
    {
        match u32::try_from(self.roots - count) {
            Ok(kids) => self.make(Entry::Join(kids), count),
            Err(_) => Ok(false),
        }
    }

    /// Drops the trees after the first `count`.
    pub(crate) fn cut(&mut self, count: usize)
        requires whole { IsWhole self.old }
        requires within { count ≤ length (made self.old) }
        ensures cut { trees_in self.new ≡ take count (trees_in self.old) }
        ensures whole { IsWhole self.new }
    {
        while self.roots > count {
            let Some(entry) = self.entries.pop() else {
                return;
            };
            self.roots = self.roots - 1 + entry.kids();
        }
    }
}
