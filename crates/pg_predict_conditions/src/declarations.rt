//! Declarations: a gap must not begin like an operator, or like what follows (C9).
ghost use Rattle.std.specs.Prelude.{◌≡◌};
ghost use Rattle.pg_predict_conditions.specs.Judged.{noted_leaf};
ghost use Rattle.pg_predict_conditions.specs.Questions.{found_at};

use crate::judge::Judge;
use crate::noting::gap_meets;
use crate::violation::ViolationKind;
use pg_grammar_form::{Leaf, NodeId, WordId};

/// The violation of a leaf, if there is one.
pub(crate) fn ask_leaf(
    judge: &Judge,
    node: NodeId,
    leaf: &Leaf<WordId>,
) -> Option<ViolationKind<usize>>
    ensures { found_at node result ≡ noted_leaf judge.now node leaf.now }
{
    if leaf.is_declaration() {
        gap_meets(judge.gap_met(None, node), node)
    } else {
        None
    }
}
