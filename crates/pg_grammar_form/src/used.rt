//! What a grammar uses from a registry: predicates and builders by name, each with what it does.
//!
//! A grammar keeps the class of each predicate and the shape of each builder that it names, so that its meaning doesn't
//! depend on a registry. `Grammar::fits` tells whether a registry has them with these classes and shapes.

ghost use Rattle.std.specs.Prelude.{◌≡◌, ◌↔◌, IfOk, IsTrue};
ghost use Rattle.pg_tree.specs.declared.shape.Shape.TheVariants.{Node};
ghost use Rattle.pg_grammar_form.specs.Chains.{handed, with_symbol};

use pg_class::Class;
use pg_tree::{Label, Shape};
use std::alloc::{AllocError, Global};

/// A predicate that a class expression names.
#[derive(Drop)]
pub struct PredicateUse {
    /// Its name.
    pub name: Label,
    /// The class of the characters for which it holds.
    pub class: Class,
}

impl PredicateUse {
    /// A copy in memory of its own.
    pub fn copy(&self, alloc: Global) -> Result<PredicateUse, AllocError>
        ensures { IfOk result (λ used. used ≡ self.now) }
    {
        Ok(PredicateUse {
            name: self.name.copy(alloc)?,
            class: self.class.share()?,
        })
    }
}

/// A builder that a base form names.
#[derive(Drop)]
pub struct BuilderUse {
    /// Its name.
    pub name: Label,
    /// The shape of the trees that it makes.
    pub shape: Shape,
}

impl BuilderUse {
    /// A copy in memory of its own.
    pub fn copy(&self, alloc: Global) -> Result<BuilderUse, AllocError>
        ensures { IfOk result (λ used. used ≡ self.now) }
    {
        Ok(BuilderUse {
            name: self.name.copy(alloc)?,
            shape: self.shape.copy(alloc)?,
        })
    }
}

/// A builder that a chain names, with the symbol that it is handed at each link (ours).
#[derive(Drop)]
pub struct ChainBuilder {
    /// Its name.
    pub name: Label,
    /// The symbol, which may be empty.
    pub symbol: Label,
    /// The shape that makes with no symbol what the builder makes with this one.
    pub shape: Shape,
}

impl ChainBuilder {
    /// The builder, handed this symbol. The only error is running out of memory.
    pub fn new(alloc: Global, used: BuilderUse, symbol: Label) -> Result<ChainBuilder, AllocError>
        ensures { IfOk result (λ chain. chain ≡ handed used symbol) }
    {
        let BuilderUse { name, shape } = used;
        let shape = with_symbol(alloc, shape, &symbol)?;
        Ok(ChainBuilder {
            name,
            symbol,
            shape,
        })
    }

    /// Whether a builder of this shape, handed the symbol, makes the trees of this one. It takes no memory.
    pub fn is_of(&self, offered: &Shape) -> bool
        ensures { IsTrue result ↔ (with_symbol offered.now self.now.symbol ≡ self.now.shape) }
    {
        match offered {
            Shape::Symbol => is_labelled(&self.shape, &self.symbol),
            Shape::Node(_) | Shape::Join | Shape::Flat(_) => offered.equals(&self.shape),
        }
    }

    /// A copy in memory of its own.
    pub fn copy(&self, alloc: Global) -> Result<ChainBuilder, AllocError>
        ensures { IfOk result (λ used. used ≡ self.now) }
    {
        let name = self.name.copy(alloc)?;
        let symbol = self.symbol.copy(alloc)?;
        let shape = self.shape.copy(alloc)?;
        Ok(ChainBuilder {
            name,
            symbol,
            shape,
        })
    }
}

/// Whether the shape makes nodes with this label.
fn is_labelled(shape: &Shape, label: &Label) -> bool
    ensures { IsTrue result ↔ (Node label.now ≡ shape.now) }
{
    match shape {
        Shape::Node(other) => label.equals(other),
        Shape::Symbol | Shape::Join | Shape::Flat(_) => false,
    }
}

/// The shape that makes with no symbol what this one makes with the symbol.
fn with_symbol(alloc: Global, shape: Shape, symbol: &Label) -> Result<Shape, AllocError>
    ensures { IfOk result (λ made. made ≡ with_symbol shape symbol.now) }
{
    match shape {
        Shape::Symbol => Ok(Shape::Node(symbol.copy(alloc)?)),
        Shape::Node(label) => Ok(Shape::Node(label)),
        Shape::Join => Ok(Shape::Join),
        Shape::Flat(label) => Ok(Shape::Flat(label)),
    }
}

/// The builders of an expression, one for each position of the operator.
#[derive(Drop)]
pub struct OperatorBuilders {
    /// Builds the tree of an infix operator.
    pub infix: BuilderUse,
    /// Builds the tree of a prefix operator.
    pub prefix: BuilderUse,
    /// Builds the tree of a postfix operator.
    pub postfix: BuilderUse,
}

impl OperatorBuilders {
    /// A copy in memory of its own.
    pub fn copy(&self, alloc: Global) -> Result<OperatorBuilders, AllocError>
        ensures { IfOk result (λ builders. builders ≡ self.now) }
    {
        Ok(OperatorBuilders {
            infix: self.infix.copy(alloc)?,
            prefix: self.prefix.copy(alloc)?,
            postfix: self.postfix.copy(alloc)?,
        })
    }
}
