//! One tree, as a parser builds it.
//!
//! A tree is opaque: `leaf` and `node` build it, and contracts see it as `leaf text` or `node label kids` of
//! specs/Trees.antt, with texts as their bytes in UTF-8. No clause says how it is stored. The parsers' results and the
//! printed forests rely on it.

ghost use Rattle.std.specs.Prelude.{◌≡◌, [], ◌∷◌, IfOk};
ghost use Rattle.pg_tree.specs.Trees.{leaf, node, kids_of};

use crate::forest::Forest;
use crate::store::Store;
use std::alloc::{AllocError, Global};
use std::marker::Model;

/// A leaf with a text, or a node with a label and its kids in order (ours: the shape of the results of a parser's run).
#[derive(Drop)]
pub struct Tree {
    /// The tree alone.
    pub(crate) forest: Forest,
}

impl Model for Tree {
    ghost use Rattle.std.specs.Prelude.{◌≡◌, [], ◌∷◌};
    ghost use Rattle.pg_tree.specs.Trees.{Tree as Shape, lone_tree};
    ghost use Rattle.pg_tree.specs.Marks.{tree_code};

    ghost Value = { Shape };

    ghost coded = { tree_code };

    ghost view = { λ t. lone_tree t.forest };

    ghost invariant = { λ t. t.forest ≡ lone_tree t.forest ∷ [] };
}

impl Tree {
    /// A leaf with a copy of this text.
    pub fn leaf(alloc: Global, text: &str) -> Result<Tree, AllocError>
        ensures { IfOk result (λ t. t ≡ leaf text.now) }
    {
        let forest = one_leaf(alloc, text)?;
        Ok(Tree { forest })
    }

    /// A node with a copy of this label and these kids, which may be none. The only error is running out of memory; the
    /// kids are then gone.
    pub fn node(alloc: Global, label: &str, kids: Forest) -> Result<Tree, AllocError>
        ensures { IfOk result (λ t. t ≡ node label.now (kids_of kids)) }
    {
        let mut forest = kids;
        forest.wrap(label, 0)?;
        Ok(Tree { forest })
    }
}

/// A forest of one leaf with a copy of this text.
fn one_leaf(alloc: Global, text: &str) -> Result<Forest, AllocError>
    ensures { IfOk result (λ forest. forest ≡ leaf text.now ∷ []) }
{
    let store = Store::leaf(alloc, text.as_bytes())?;
    Ok(Forest { store })
}
