//! Violations and the nodes where they are.
ghost use Rattle.std.specs.Prelude.{◌≡◌};
ghost use Rattle.pg_predict_conditions.specs.Judged.{noted, noted_gap};
ghost use Rattle.pg_predict_conditions.specs.Questions.{found_at};

use crate::violation::ViolationKind;
use pg_grammar_form::NodeId;

/// The violation at this node, if there is one.
pub(crate) fn found_where(
    holds: bool,
    node: NodeId,
    kind: ViolationKind<usize>,
) -> Option<ViolationKind<usize>>
    ensures { found_at node result ≡ noted holds node kind }
{
    if holds { Some(kind) } else { None }
}

/// The violation if gaps meet a start at a node (C9).
pub(crate) fn gap_meets(met: Option<usize>, node: NodeId) -> Option<ViolationKind<usize>>
    ensures { found_at node result ≡ noted_gap met node }
{
    match met {
        Some(start) => Some(ViolationKind::GapMeets(start)),
        None => None,
    }
}
