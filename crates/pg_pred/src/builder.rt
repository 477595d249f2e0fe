//! A named shape with a function that makes its trees.
//!
//! The function may always be called, and makes the tree of the shape unless memory runs out. Both are facts of the
//! type: `new` requires them, and a builder never changes once it is made. Callers of `make` rely on the shape alone.

ghost use Rattle.std.specs.Prelude.{◌≡◌, string_bytes, IfOk};
ghost use Rattle.pg_tree.specs.Built.{built};
ghost use Rattle.pg_pred.specs.Makes.{Makes, Makes-prop};

use crate::named::Named;
use pg_tree::{Forest, Shape, Tree};
use std::alloc::{AllocError, Global};

/// A stored function that makes a tree of a symbol and kids.
pub type Make = Box<dyn Fn(Global, &str, Forest) -> Result<Tree, AllocError>>;

/// A named shape with a function that makes its trees.
#[derive(Drop)]
#[derive_where(Debug)]
pub struct Builder {
    pub name: String,
    pub shape: Shape,
    #[derive_where(skip)]
    pub make: Make,
    pub ghost callable: { Make.IsAlwaysCallable make },
    pub ghost makes: { Makes shape (Make.post make) } by { Makes-prop shape _ },
}

impl Builder {
    /// The builder of this function. The caller owes that it makes the tree of the shape, unless memory runs out.
    pub fn new(name: String, shape: Shape, make: Make) -> Builder
        requires callable { Make.IsAlwaysCallable make }
        requires makes { Makes shape (Make.post make) }
        ensures name { result.name ≡ name }
        ensures shape { result.shape ≡ shape }
    {
        Builder { name, shape, make }
    }

    /// The tree of the shape, made by the stored function.
    pub fn make(&self, alloc: Global, symbol: &str, kids: Forest) -> Result<Tree, AllocError>
        ensures { IfOk result (λ tree. tree ≡ built self.now.shape symbol.now kids) }
    {
        (self.make)(alloc, symbol, kids)
    }

    /// The shape.
    pub fn shape(&self) -> &Shape
        ensures { result.now ≡ self.now.shape }
    {
        &self.shape
    }

    /// The name.
    pub fn name(&self) -> &str
        ensures { result.now ≡ string_bytes self.now.name }
    {
        self.name.as_str()
    }
}

impl Named for Builder {
    ghost name_of = { λ b. string_bytes b.name };

    fn name(&self) -> &str {
        self.name()
    }
}
