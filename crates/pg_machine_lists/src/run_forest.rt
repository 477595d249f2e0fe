//! The trees of a run, which are pushed and popped at the end.
//!
//! Under a form that discards its part's trees none is made, and no builder is called. The trees are only counted, so
//! each has the same index whether it is kept or not, and a text within a text is never copied. Elsewhere trees are made
//! where they lie. The machine of turns relies on both, since its texts and trees may be deeply nested.

ghost use Rattle.std.specs.Prelude.{◌≡◌, ◌∷◌, [], ◌<◌, ◌==◌, ◌^◌, drop, length, IfOk, OnOk};
ghost use Rattle.pg_tree.specs.Built.{built};
ghost use Rattle.pg_language.specs.Derives.{leaf_of};
ghost use Rattle.pg_machine_lists.specs.RunTrees.{no_run_trees, tree_count, with_trees, first_trees, hidden_after, rejoined, with_hiding, without_hiding};

use pg_tree::{Forest, Shape, Tree};
use std::alloc::{AllocError, Global};
use std::marker::Model;

/// A list of trees, changed only at its end: the first ones are kept, and the others are only counted.
#[derive(Drop)]
pub struct RunForest {
    /// The trees that are kept.
    tape: Forest,
    /// How many trees after those are only counted.
    hidden: usize,
    /// How many forms are open that discard their part's trees.
    hiding: usize,
}

impl Model for RunForest {
    ghost use Rattle.std.specs.Prelude.{◌+◌, ◌<◌, ◌^◌, length};
    ghost use Rattle.pg_machine_lists.specs.RunTrees.{RunTrees, run_trees_code};

    ghost Value = { RunTrees };

    ghost coded = { run_trees_code };

    ghost view = { λ f. record { kept = f.tape; hidden = f.hidden; hiding = f.hiding } };

    ghost invariant = { λ f. length f.tape + f.hidden < 2 ^ 64 };
}

impl RunForest {
    /// No trees. It allocates no memory.
    pub fn new(alloc: Global) -> RunForest
        ensures { result ≡ no_run_trees }
    {
        RunForest {
            tape: Forest::new(alloc),
            hidden: 0,
            hiding: 0,
        }
    }

    /// How many trees there are, with those that are only counted. It allocates no memory.
    #[inline(always)]
    pub fn len(&self) -> usize
        ensures { result ≡ tree_count self.now }
    {
        self.tape.len() + self.hidden
    }

    /// Whether trees are kept: no open form discards them.
    pub fn keeps(&self) -> bool
        ensures { result ≡ (self.now.hiding == 0) }
    {
        self.hiding == 0
    }

    /// Appends a leaf with these characters.
    #[inline(always)]
    pub fn push_leaf(&mut self, characters: &[char]) -> Result<(), AllocError>
        ensures { OnOk result (self.new ≡ with_trees (leaf_of characters.now ∷ []) self.old) }
    {
        if self.hiding > 0 {
            return self.count_one();
        }
        if self.len() == usize::MAX {
            return Err(AllocError);
        }
        self.tape.push_leaf(characters)
    }

    /// Appends a tree. The only error is that memory ran out; the tree is then dropped.
    pub fn push(&mut self, tree: Tree) -> Result<(), AllocError>
        ensures { OnOk result (self.new ≡ rejoined (tree ∷ []) 0 self.old) }
    {
        if self.len() == usize::MAX {
            return Err(AllocError);
        }
        self.tape.push(tree)
    }

    /// Counts the trees after the first `count` as one, which isn't kept. The only error is that there are too many.
    pub fn count_as_one(&mut self, count: usize) -> Result<(), AllocError>
        ensures { OnOk result (self.new ≡ rejoined [] 1 (first_trees count self.old)) }
    {
        self.cut(count);
        self.count_one()
    }

    /// Counts one more tree, which isn't kept. The only error is that there are too many.
    pub fn count_one(&mut self) -> Result<(), AllocError>
        ensures { OnOk result (self.new ≡ rejoined [] 1 self.old) }
    {
        if self.len() == usize::MAX {
            return Err(AllocError);
        }
        self.hidden += 1;
        Ok(())
    }

    /// Appends trees that were taken off, and `hidden` trees that are only counted.
    pub fn rejoin(&mut self, other: Forest, hidden: usize) -> Result<(), AllocError>
        ensures { OnOk result (self.new ≡ rejoined other hidden self.old) }
    {
        let room = usize::MAX - self.len();
        if room < hidden || room - hidden < other.len() {
            return Err(AllocError);
        }
        self.hidden += hidden;
        self.tape.append(other)
    }

    /// Drops the trees after the first `count`, if there are more. It allocates no memory.
    #[inline(always)]
    pub fn cut(&mut self, count: usize)
        ensures { self.new ≡ first_trees count self.old }
    {
        let kept = self.tape.len();
        if count < kept {
            self.tape.cut(count);
            self.hidden = 0;
        } else {
            self.hidden = self.hidden.min(count - kept);
        }
    }

    /// How many trees after the first `count` are only counted.
    pub fn hidden_after(&self, count: usize) -> usize
        ensures { result ≡ hidden_after count self.now }
    {
        self.hidden
            .saturating_sub(count.saturating_sub(self.tape.len()))
    }

    /// Moves the kept trees after the first `count` into a forest of their own, and drops those that are only counted.
    pub fn split_off(&mut self, alloc: Global, count: usize) -> Result<Forest, AllocError>
        ensures ok { OnOk result (self.new ≡ first_trees count self.old) }
        ensures rest { IfOk result (λ forest. forest ≡ drop count self.old.kept) }
    {
        let kept = self.tape.len();
        let first = count.min(kept);
        match self.tape.split_off(alloc, first) {
            Ok(rest) => {
                self.hidden = self.hidden.min(count - first);
                Ok(rest)
            }
            Err(failed) => {
                self.hidden = 0;
                bounded(&self.tape);
                Err(failed)
            }
        }
    }

    /// Builds the kept trees after the first `count` into one, as the shape says with the symbol, and drops those that are only
    /// counted. The trees below them don't move. The only errors are that memory ran out and that there is too much.
    pub fn build(&mut self, shape: &Shape, symbol: &str, count: usize) -> Result<(), AllocError>
        ensures { OnOk result (self.new ≡ rejoined (built shape.now symbol.now (drop count self.old.kept) ∷ []) 0 (first_trees count self.old)) }
    {
        if self.len() == usize::MAX {
            return Err(AllocError);
        }
        let kept = self.tape.len();
        let first = count.min(kept);
        match self.tape.build(shape, symbol, first) {
            Ok(()) => {
                self.hidden = self.hidden.min(count - first);
                Ok(())
            }
            Err(failed) => {
                self.hidden = 0;
                bounded(&self.tape);
                Err(failed)
            }
        }
    }

    /// Begins a form that discards its part's trees. The only error is that there are too many.
    pub fn hide(&mut self) -> Result<(), AllocError>
        ensures { OnOk result (self.new ≡ with_hiding self.old) }
    {
        self.hiding = self.hiding.checked_add(1).ok_or(AllocError)?;
        Ok(())
    }

    /// Ends a form that discards its part's trees.
    pub fn show(&mut self)
        ensures { self.new ≡ without_hiding self.old }
    {
        self.hiding = self.hiding.saturating_sub(1);
    }

    /// The kept trees as one forest. It allocates no memory.
    pub fn into_forest(self) -> Forest
        ensures { result ≡ self.kept }
    {
        let RunForest { tape, .. } = self;
        tape
    }
}

/// The number of trees on a tape fits into 64 bits, as its length shows.
fn bounded(tape: &Forest)
    ensures { length tape.now < 2 ^ 64 }
{
    let _count = tape.len();
}
