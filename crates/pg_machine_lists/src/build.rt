//! Builds the last trees of a run into one, as the registry's builders do.

ghost use Rattle.std.specs.Prelude.{◌≡◌, [], Some, OnOk};
ghost use Rattle.pg_pred.specs.Offer.{offer_of, builder_shape};
ghost use Rattle.pg_machine_lists.specs.RunTrees.{built_after};

use crate::run_forest::RunForest;
use pg_grammar_form::{BuilderUse, ChainBuilder};
use pg_pred::Registry;
use pg_tree::Shape;
use std::alloc::AllocError;

/// Builds the trees after the first `count` into one, as the builder does with the symbol, if trees are kept; otherwise they count as
/// one. The builder isn't called: its type fixes the tree that it makes by its shape, and that tree is made where
/// its parts lie. The registry must offer the builder. The only errors are that memory ran out and that there are
/// too many trees.
pub fn build_after(
    _registry: &Registry,
    used: &BuilderUse,
    symbol: &str,
    count: usize,
    forest: &mut RunForest,
) -> Result<(), AllocError>
    requires { builder_shape (offer_of _registry.now) used.now.name ≡ Some used.now.shape }
    ensures { OnOk result (forest.new ≡ built_after used.now.shape symbol.now count forest.old) }
{
    build_shape(&used.shape, symbol, count, forest)
}

/// The same for a chain's builder, whose shape is for its symbol.
pub fn build_chain(
    used: &ChainBuilder,
    count: usize,
    forest: &mut RunForest,
) -> Result<(), AllocError>
    ensures { OnOk result (forest.new ≡ built_after used.now.shape [] count forest.old) }
{
    build_shape(&used.shape, "", count, forest)
}

/// Builds the trees after the first `count` into one, if trees are kept; otherwise they count as one.
fn build_shape(
    shape: &Shape,
    symbol: &str,
    count: usize,
    forest: &mut RunForest,
) -> Result<(), AllocError>
    ensures { OnOk result (forest.new ≡ built_after shape.now symbol.now count forest.old) }
{
    if !forest.keeps() {
        return forest.count_as_one(count);
    }
    forest.build(shape, symbol, count)
}
