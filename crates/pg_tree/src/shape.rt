//! How a builder makes a tree of the results of its parser.
//!
//! A shape is part of a grammar, beside the builder's name, so that it determines what the grammar derives. The
//! functions that builders store have to agree with `built`, and so does the function of this name.

ghost use Rattle.std.specs.Prelude.{◌≡◌, ◌↔◌, IfOk, IsTrue};
ghost use Rattle.pg_tree.specs.Built.{built};

use crate::forest::Forest;
use crate::label::Label;
use crate::tree::Tree;
use std::alloc::{AllocError, Global};

/// How kids and a symbol become a tree (ours).
#[derive(Debug, Drop)]
pub enum Shape {
    /// A node with this label and the kids.
    Node(Label),
    /// A node with the kids, labelled by the symbol.
    Symbol,
    /// A leaf with the texts of all leaves of the kids, joined in order.
    Join,
    /// A node with this label and the kids, where each kid with the same label is replaced by its own kids.
    Flat(Label),
}

impl Shape {
    /// An equal shape in memory of its own.
    pub fn copy(&self, alloc: Global) -> Result<Shape, AllocError>
        ensures { IfOk result (λ shape. shape ≡ self.now) }
    {
        match self {
            Shape::Node(label) => Ok(Shape::Node(label.copy(alloc)?)),
            Shape::Symbol => Ok(Shape::Symbol),
            Shape::Join => Ok(Shape::Join),
            Shape::Flat(label) => Ok(Shape::Flat(label.copy(alloc)?)),
        }
    }

    /// Whether the other shape is equal.
    pub fn equals(&self, other: &Shape) -> bool
        ensures { IsTrue result ↔ (self.now ≡ other.now) }
    {
        match (self, other) {
            (Shape::Node(label), Shape::Node(same)) => label.equals(same),
            (Shape::Symbol, Shape::Symbol) => true,
            (Shape::Join, Shape::Join) => true,
            (Shape::Flat(label), Shape::Flat(same)) => label.equals(same),
            (Shape::Node(_) | Shape::Symbol | Shape::Join | Shape::Flat(_), _) => false,
        }
    }
}

/// The tree that a shape makes of a symbol and kids. The only error is running out of memory; the kids are then gone.
pub fn built(alloc: Global, shape: &Shape, symbol: &str, kids: Forest) -> Result<Tree, AllocError>
    ensures { IfOk result (λ tree. tree ≡ built shape.now symbol.now kids) }
{
    let mut forest = kids;
    forest.build(shape, symbol, 0)?;
    Ok(Tree { forest })
}
