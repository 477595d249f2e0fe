//! A list of trees, as a parser's results in order.
//!
//! Contracts see a forest as the list of its trees. It is stored as `store.rt` says, so no call recurses over a tree, and the last trees become one tree
//! without being moved. A call that appends trees and runs out of memory leaves the forest as it was. The parsers that collect results rely on that.

ghost use Rattle.std.specs.Prelude.{◌≡◌, ◌≤◌, [], ◌∷◌, ◌++◌, take, drop, length, encode_utf8_all, IfOk, OnErr, OnOk};
ghost use Rattle.pg_tree.specs.Trees.{leaf, node, kids_of};
ghost use Rattle.pg_tree.specs.Built.{built, flattened, kids_text};
ghost use Rattle.pg_tree.specs.Kept.{kepts_of, trees_of};

use crate::entries::Entries;
use crate::shape::Shape;
use crate::store::Store;
use crate::tree::Tree;
use std::alloc::{AllocError, Global};
use std::marker::Model;

/// A list of trees, in the order in which they were added (ours: what the parsers of a sequence gave).
#[derive(Drop)]
pub struct Forest {
    pub(crate) store: Store,
}

impl Model for Forest {
    ghost use Rattle.std.specs.Prelude.{List};
    ghost use Rattle.std.specs.Coded.{coded_list};
    ghost use Rattle.pg_tree.specs.Trees.{Tree as Shape};
    ghost use Rattle.pg_tree.specs.Marks.{tree_code};
    ghost use Rattle.pg_tree.specs.Kept.{listed, AreShown};
    ghost use Rattle.pg_tree.specs.Stored.{kept_in, Keeps};

    ghost Value = { List Shape };

    ghost coded = { coded_list tree_code };

    ghost view = { λ f. listed (kept_in f.store) };

    ghost invariant = { λ f. Keeps f.store (kept_in f.store) × AreShown (kept_in f.store) };
}

impl Forest {
    /// An empty forest. It takes no memory.
    pub fn new(alloc: Global) -> Forest
        ensures { result ≡ [] }
    {
        Forest {
            store: Store::new(alloc),
        }
    }

    /// How many trees there are. It takes no memory.
    pub fn len(&self) -> usize
        ensures { result ≡ length self.now }
    {
        self.store.roots
    }

    /// Its entries, from the last to the first (ours). It takes no memory.
    pub fn entries(&self) -> Entries<'_>
        ensures { trees_of (kepts_of result) ≡ kids_of self.now }
    {
        Entries::of(&self.store)
    }

    /// Appends a tree. The only error is running out of memory; the tree is then gone.
    pub fn push(&mut self, tree: Tree) -> Result<(), AllocError>
        ensures ok { OnOk result (self.new ≡ self.old ++ tree ∷ []) }
        ensures err { OnErr result (self.new ≡ self.old) }
    {
        let Tree { forest } = tree;
        self.append(forest)
    }

    /// Appends a leaf with the UTF-8 text of these characters.
    pub fn push_leaf(&mut self, characters: &[char]) -> Result<(), AllocError>
        ensures ok { OnOk result (self.new ≡ self.old ++ leaf (encode_utf8_all characters.now) ∷ []) }
        ensures err { OnErr result (self.new ≡ self.old) }
    {
        self.store.push_leaf(characters)?;
        Ok(())
    }

    /// Appends the trees of another forest, in their order. The only error is running out of memory; those trees are
    /// then gone.
    pub fn append(&mut self, other: Forest) -> Result<(), AllocError>
        ensures ok { OnOk result (self.new ≡ self.old ++ other) }
        ensures err { OnErr result (self.new ≡ self.old) }
    {
        let Forest { store } = other;
        self.store.append(store)?;
        Ok(())
    }

    /// Makes the trees after the first `count` into one tree, as the shape says, with the symbol. The caller owes that there are `count` trees. The time
    /// grows with the number of trees made into one and with the label, but not with what lies below them. The only error is running out of memory, or more
    /// than can be counted.
    pub fn build(&mut self, shape: &Shape, symbol: &str, count: usize) -> Result<(), AllocError>
        requires { count ≤ length self.old }
        ensures { OnOk result (self.new ≡ take count self.old ++ built shape.now symbol.now (drop count self.old) ∷ []) }
    {
        match shape {
            Shape::Node(label) => self.wrap(label.as_str(), count),
            Shape::Symbol => self.wrap(symbol, count),
            Shape::Join => self.join(count),
            Shape::Flat(label) => self.flatten(label.as_str(), count),
        }
    }

    /// Makes the trees after the first `count` the kids of one node with a copy of this label.
    pub(crate) fn wrap(&mut self, label: &str, count: usize) -> Result<(), AllocError>
        requires { count ≤ length self.old }
        ensures { OnOk result (self.new ≡ take count self.old ++ node label.now (kids_of (drop count self.old)) ∷ []) }
    {
        self.store.wrap(label, count)?;
        Ok(())
    }

    /// Makes the trees after the first `count` into one leaf with the texts of all their leaves.
    fn join(&mut self, count: usize) -> Result<(), AllocError>
        requires { count ≤ length self.old }
        ensures { OnOk result (self.new ≡ take count self.old ++ leaf (kids_text (kids_of (drop count self.old))) ∷ []) }
    {
        self.store.join(count)?;
        Ok(())
    }

    /// Makes the trees after the first `count` the kids of one node with a copy of this label. A kid with the same label is replaced by its own kids.
    fn flatten(&mut self, label: &str, count: usize) -> Result<(), AllocError>
        requires { count ≤ length self.old }
        ensures { OnOk result (self.new ≡ take count self.old ++ node label.now (flattened label.now (kids_of (drop count self.old))) ∷ []) }
    {
        self.store.mark(label, count);
        if self.store.wrap(label, count).is_err() {
            self.store.cut(count);
            return Err(AllocError);
        }
        Ok(())
    }

    /// Drops the trees after the first `count`. The caller owes that there are `count` trees. It takes no memory, so a
    /// parser that failed can take back what it read.
    pub fn cut(&mut self, count: usize)
        requires { count ≤ length self.old }
        ensures { self.new ≡ take count self.old }
    {
        self.store.cut(count);
    }

    /// Moves the trees after the first `count` into a forest of their own. The caller owes that there are `count`
    /// trees. The only error is running out of memory; all trees then stay.
    pub fn split_off(&mut self, alloc: Global, count: usize) -> Result<Forest, AllocError>
        requires { count ≤ length self.old }
        ensures ok { OnOk result (self.new ≡ take count self.old) }
        ensures rest { IfOk result (λ forest. forest ≡ drop count self.old) }
        ensures err { OnErr result (self.new ≡ self.old) }
    {
        let rest = self.copy_after(alloc, count)?;
        self.cut(count);
        Ok(rest)
    }

    /// A copy of the trees after the first `count`.
    fn copy_after(&self, alloc: Global, count: usize) -> Result<Forest, AllocError>
        requires { count ≤ length self.now }
        ensures { IfOk result (λ forest. forest ≡ drop count self.now) }
    {
        let store = self.store.copy_after(alloc, count)?;
        Ok(Forest { store })
    }

    /// Asks for `times` times the memory of the trees after the first `count` with a node above them, so that a want of memory shows before they are made
    /// again. The caller owes that there are `count` trees. The trees stay. The only error is running out of memory, or more than can be counted.
    pub fn reserve(&mut self, count: usize, times: usize) -> Result<(), AllocError>
        requires { count ≤ length self.old }
        ensures { self.new ≡ self.old }
    {
        self.store.reserve(count, times)?;
        Ok(())
    }
}
