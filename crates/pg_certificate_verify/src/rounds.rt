//! What breaks the conditions on repetitions, by sets of numbers: C2 and C6.

ghost use Rattle.std.specs.Prelude.{◌≡◌, ◌↔◌, length, IfOk, IsTrue};
ghost use Rattle.pg_graph_bits.specs.Numbers.{set_at};
ghost use Rattle.pg_grammar_value.specs.Grammar.{Grammar};
ghost use Rattle.pg_predict_conditions.specs.Shown.{AreWellFormed};
ghost use Rattle.pg_certificate_verify.specs.Breaking.{BeginsLinkBy, FollowsBy, SomeMeet, HasEmptyRound, RoundMeetsFollow, HasParts};

use crate::pairs::sets_meet;
use pg_grammar_form::{Form, Node, NodeId};
use pg_graph_bits::BitSet;
use pg_sets::Sets;
use std::alloc::{AllocError, Global};

/// Whether a round of a repetition can be empty (C2).
pub(crate) fn has_empty_round(sets: &Sets, form: &Node) -> bool
    ensures { IsTrue result ↔ HasEmptyRound sets.now form.now }
{
    match form {
        Form::Many(part) => sets.nullable(*part),
        Form::Chain(_, _, operand, separator) => {
            sets.nullable(*separator) && sets.nullable(*operand)
        }
        Form::Leaf(_)
        | Form::Seq(_)
        | Form::Choice(_)
        | Form::Rule(_)
        | Form::Expression(_, _)
        | Form::Around(_, _) => false,
    }
}

/// Whether a round has a start that meets one of those that follow the repetition (C6).
pub(crate) fn round_meets_follow(
    alloc: Global,
    sets: &Sets,
    node: NodeId,
    form: &Node,
) -> Result<bool, AllocError>
    requires { HasParts sets.now form.now }
    ensures { IfOk result (λ meet. (g : Grammar) → AreWellFormed g sets.now → IsTrue meet ↔ RoundMeetsFollow g sets.now node form.now) }
{
    match form {
        Form::Many(part) => Ok(sets_meet(sets, sets.first(*part), sets.follow(node))),
        Form::Chain(_, _, operand, separator) => {
            link_meets_follow(alloc, sets, node, *operand, *separator)
        }
        Form::Leaf(_)
        | Form::Seq(_)
        | Form::Choice(_)
        | Form::Rule(_)
        | Form::Expression(_, _)
        | Form::Around(_, _) => Ok(false),
    }
}

/// A round of a chain is a separator and an operand.
fn link_meets_follow(
    alloc: Global,
    sets: &Sets,
    node: NodeId,
    operand: NodeId,
    separator: NodeId,
) -> Result<bool, AllocError>
    requires operand { length (set_at sets.now.firsts operand) ≡ length sets.now.starts }
    requires separator { length (set_at sets.now.firsts separator) ≡ length sets.now.starts }
    ensures { IfOk result (λ meet. (g : Grammar) → AreWellFormed g sets.now
        → IsTrue meet ↔ SomeMeet g (BeginsLinkBy sets.now operand separator) (FollowsBy sets.now node)) }
{
    let follow = sets.follow(node);
    let of_separator = sets.first(separator);
    if !sets.nullable(separator) {
        return Ok(sets_meet(sets, of_separator, follow));
    }
    let of_operand = sets.first(operand);
    let mut link = BitSet::new(alloc, sets.starts().len())?;
    link.unite(of_separator);
    link.unite(of_operand);
    Ok(sets_meet(sets, &link, follow))
}
