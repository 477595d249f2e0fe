//! A list of trees over a text.

ghost use Rattle.std.specs.Prelude.{◌≡◌, ◌≤◌, ◌++◌, ◌∷◌, [], true, false, length, take, drop, encode_utf8_all, IfOk, OnErr};
ghost use Rattle.pg_tree.specs.Trees.{leaf};
ghost use Rattle.pg_tree.specs.Built.{built};

use crate::store::Store;
use pg_tree::Shape;
use std::alloc::{AllocError, Global};
use std::marker::Model;

/// A list of trees over a text, in the order in which they were added (ours).
#[derive(Drop)]
pub struct PlacedForest<'a> {
    pub(crate) store: Store<'a>,
}

impl<'a> Model for PlacedForest<'a> {
    ghost use Rattle.std.specs.Prelude.{List};
    ghost use Rattle.std.specs.Coded.{coded_list};
    ghost use Rattle.pg_tree.specs.Trees.{Tree as Shape};
    ghost use Rattle.pg_tree.specs.Marks.{tree_code};
    ghost use Rattle.pg_tree_placed.specs.Made.{trees_in, IsWhole};

    ghost Value = { List Shape };

    ghost coded = { coded_list tree_code };

    ghost view = { λ f. trees_in f.store };

    ghost invariant = { λ f. IsWhole f.store };
}

impl<'a> PlacedForest<'a> {
    /// An empty forest. It takes no memory.
    pub fn new(alloc: Global, text: &'a [char]) -> PlacedForest<'a>
        ensures { result ≡ [] }
    {
        PlacedForest {
            store: Store::new(alloc, text),
        }
    }

    /// Asks for memory for the trees of most texts. The only error is that there is none.
    pub fn reserve(&mut self) -> Result<(), AllocError>
        ensures { self.new ≡ self.old }
    {
        self.store.reserve()
    }

    /// How many trees there are. It takes no memory.
    pub fn len(&self) -> usize
        ensures { result ≡ length self.now }
    {
        self.store.roots
    }

    /// Appends a leaf with the UTF-8 text of these characters, which stand in the text from this place on. Says whether it did: not if they don't stand
    /// there, or if the place passes 32 bits. The only error is running out of memory.
    pub fn push_leaf(&mut self, characters: &[char], from: usize) -> Result<bool, AllocError>
        ensures done { IfOk result (λ done. done ≡ true → self.new ≡ self.old ++ leaf (encode_utf8_all characters.now) ∷ []) }
        ensures stays { IfOk result (λ done. done ≡ false → self.new ≡ self.old) }
        ensures err { OnErr result (self.new ≡ self.old) }
    {
        self.store.push_leaf(characters, from)
    }

    /// Appends what a shape makes, with the symbol, of one leaf of these characters, which stand in the text from this place on. Says whether it did: not if they
    /// don't stand there, or if more than 32 bits would be needed. The only error is running out of memory.
    #[inline]
    pub fn push_built(
        &mut self,
        shape: &Shape,
        symbol: &str,
        characters: &[char],
        from: usize,
    ) -> Result<bool, AllocError>
        ensures done { IfOk result (λ done. done ≡ true → self.new ≡ self.old ++ built shape.now symbol.now (leaf (encode_utf8_all characters.now) ∷ []) ∷ []) }
    {
        match shape {
            Shape::Node(label) | Shape::Flat(label) => {
                self.store.push_single(label.as_str(), characters, from)
            }
            Shape::Symbol => self.store.push_single(symbol, characters, from),
            Shape::Join => self.store.push_leaf(characters, from),
        }
    }

    /// Makes the trees after the first `count` into one tree, as the shape says, with the symbol. The caller owes that there are `count` trees. Says whether
    /// it did: not if more than 32 bits count is needed. The only error is running out of memory.
    #[inline]
    pub fn build(&mut self, shape: &Shape, symbol: &str, count: usize) -> Result<bool, AllocError>
        requires { count ≤ length self.old }
        ensures done { IfOk result (λ done. done ≡ true → self.new ≡ take count self.old ++ built shape.now symbol.now (drop count self.old) ∷ []) }
    {
        match shape {
            Shape::Node(label) => self.store.wrap(label.as_str(), false, count),
            Shape::Symbol => self.store.wrap(symbol, false, count),
            Shape::Join => self.store.join(count),
            Shape::Flat(label) => self.store.wrap(label.as_str(), true, count),
        }
    }

    /// Drops the trees after the first `count`. The caller owes that there are `count` trees. It takes no memory.
    pub fn cut(&mut self, count: usize)
        requires { count ≤ length self.old }
        ensures { self.new ≡ take count self.old }
    {
        self.store.cut(count);
    }
}
