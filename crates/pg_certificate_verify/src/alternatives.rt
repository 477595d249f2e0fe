//! What breaks the conditions on choices, by sets of numbers: C3, C4 and C5.

ghost use Rattle.std.specs.Prelude.{◌≡◌, ◌↔◌, ℕ, Some, slice_get, length, IfOk, IsTrue};
ghost use Rattle.pg_graph_bits.specs.Numbers.{set_at};
ghost use Rattle.pg_grammar_value.specs.Grammar.{Grammar};
ghost use Rattle.pg_predict_conditions.specs.Shown.{AreWellFormed};
ghost use Rattle.pg_certificate_verify.specs.Breaking.{IsEmptyEarly, HasEmptyAlternative, TwoMeet, AlternativesMeet, EndsEmpty, OneMeetsFollow, AlternativeMeetsFollow, HasParts};

use crate::pairs::{is_pair, sets_meet};
use pg_grammar_form::{Form, Node, NodeId};
use pg_graph_bits::BitSet;
use pg_sets::Sets;
use std::alloc::{AllocError, Global};

/// Whether an alternative before the last can be empty (C3).
pub(crate) fn has_empty_alternative(sets: &Sets, form: &Node) -> bool
    ensures { IsTrue result ↔ HasEmptyAlternative sets.now form.now }
{
    match form {
        Form::Choice(parts) => is_empty_early(sets, parts.as_slice()),
        Form::Leaf(_)
        | Form::Seq(_)
        | Form::Many(_)
        | Form::Chain(_, _, _, _)
        | Form::Rule(_)
        | Form::Expression(_, _)
        | Form::Around(_, _) => false,
    }
}

fn is_empty_early(sets: &Sets, parts: &[NodeId]) -> bool
    ensures { IsTrue result ↔ IsEmptyEarly sets.now parts.now }
{
    for place in 1..parts.len() {
        if sets.nullable(parts[place - 1]) {
            return true;
        }
    }
    false
}

/// Whether two alternatives have starts that meet (C4).
pub(crate) fn alternatives_meet(alloc: Global, sets: &Sets, form: &Node) -> Result<bool, AllocError>
    requires { HasParts sets.now form.now }
    ensures { IfOk result (λ meet. (g : Grammar) → AreWellFormed g sets.now → IsTrue meet ↔ AlternativesMeet g sets.now form.now) }
{
    match form {
        Form::Choice(parts) => two_meet(alloc, sets, parts.as_slice()),
        Form::Leaf(_)
        | Form::Seq(_)
        | Form::Many(_)
        | Form::Chain(_, _, _, _)
        | Form::Rule(_)
        | Form::Expression(_, _)
        | Form::Around(_, _) => Ok(false),
    }
}

/// Each alternative is compared with all later ones at once, by the union of their starts.
fn two_meet(alloc: Global, sets: &Sets, parts: &[NodeId]) -> Result<bool, AllocError>
    requires { (k q : ℕ) → slice_get parts.now k ≡ Some q → length (set_at sets.now.firsts q) ≡ length sets.now.starts }
    ensures { IfOk result (λ meet. (g : Grammar) → AreWellFormed g sets.now → IsTrue meet ↔ TwoMeet g sets.now parts.now) }
{
    let starts = sets.starts();
    let mut later = BitSet::new(alloc, starts.len())?;
    let mut next = parts.len();
    while next > 0 {
        next -= 1;
        let first = sets.first(parts[next]);
        if is_pair(starts, first, &later) {
            return Ok(true);
        }
        later.unite(first);
    }
    Ok(false)
}

/// Whether the last alternative can be empty, and another has a start that meets one of those that follow the choice (C5).
pub(crate) fn alternative_meets_follow(sets: &Sets, node: NodeId, form: &Node) -> bool
    ensures { (g : Grammar) → AreWellFormed g sets.now → IsTrue result ↔ AlternativeMeetsFollow g sets.now node form.now }
{
    match form {
        Form::Choice(parts) => {
            ends_empty(sets, parts.as_slice()) && one_meets_follow(sets, node, parts.as_slice())
        }
        Form::Leaf(_)
        | Form::Seq(_)
        | Form::Many(_)
        | Form::Chain(_, _, _, _)
        | Form::Rule(_)
        | Form::Expression(_, _)
        | Form::Around(_, _) => false,
    }
}

fn ends_empty(sets: &Sets, parts: &[NodeId]) -> bool
    ensures { IsTrue result ↔ EndsEmpty sets.now parts.now }
{
    let count = parts.len();
    if count == 0 {
        return false;
    }
    sets.nullable(parts[count - 1])
}

fn one_meets_follow(sets: &Sets, node: NodeId, parts: &[NodeId]) -> bool
    ensures { (g : Grammar) → AreWellFormed g sets.now → IsTrue result ↔ OneMeetsFollow g sets.now node parts.now }
{
    for place in 1..parts.len() {
        let early = place - 1;
        if sets_meet(sets, sets.first(parts[early]), sets.follow(node)) {
            return true;
        }
    }
    false
}
