//! What breaks the conditions on operators, by sets of numbers: C7, C8 and C9.

ghost use Rattle.std.specs.Prelude.{◌≡◌, ◌↔◌, true, false, IsTrue};
ghost use Rattle.pg_grammar_value.specs.Grammar.{Grammar};
ghost use Rattle.pg_predict_conditions.specs.Conditions.{NoneMeet, BeginsNothing};
ghost use Rattle.pg_predict_conditions.specs.Shown.{AreWellFormed};
ghost use Rattle.pg_sets.specs.Sets.{HasStart};
ghost use Rattle.pg_sets_own.specs.OperatorStarts.{AreOperatorStarts, IsGapStart};
ghost use Rattle.pg_sets_own.specs.OwnStarts.{IsOperatorStart};
ghost use Rattle.pg_certificate_verify.specs.Breaking.{SomeMeet, OperandBreaks, OperatorMeetsFollow, GapMeetsSome, GapBreaks};

use crate::pairs::first_met;
use pg_grammar_form::{Form, Node, NodeId};
use pg_graph_bits::BitSet;
use pg_sets::Sets;
use pg_sets_own::OperatorStarts;
use pg_start::apart;

/// Whether the term of an expression can be empty, or meets operators (C7).
pub(crate) fn operand_breaks(sets: &Sets, operators: &Option<OperatorStarts>, form: &Node) -> bool
    ensures { (g : Grammar) → AreWellFormed g sets.now → AreOperatorStarts g operators.now → IsTrue result ↔ OperandBreaks g sets.now form.now }
{
    match form {
        Form::Expression(_, term) => {
            sets.nullable(*term) || meets_operators(sets, operators, sets.first(*term))
        }
        Form::Leaf(_)
        | Form::Seq(_)
        | Form::Choice(_)
        | Form::Many(_)
        | Form::Chain(_, _, _, _)
        | Form::Rule(_)
        | Form::Around(_, _) => false,
    }
}

/// Whether what follows an expression meets operators (C8).
pub(crate) fn operator_meets_follow(
    sets: &Sets,
    operators: &Option<OperatorStarts>,
    node: NodeId,
    form: &Node,
) -> bool
    ensures { (g : Grammar) → AreWellFormed g sets.now → AreOperatorStarts g operators.now → IsTrue result ↔ OperatorMeetsFollow g sets.now node form.now }
{
    match form {
        Form::Expression(_, _) => meets_operators(sets, operators, sets.follow(node)),
        Form::Leaf(_)
        | Form::Seq(_)
        | Form::Choice(_)
        | Form::Many(_)
        | Form::Chain(_, _, _, _)
        | Form::Rule(_)
        | Form::Around(_, _) => false,
    }
}

/// Whether gaps meet operators, a term, or what follows an expression or a declaration (C9).
pub(crate) fn gap_breaks(
    sets: &Sets,
    operators: &Option<OperatorStarts>,
    node: NodeId,
    form: &Node,
) -> bool
    ensures { (g : Grammar) → AreWellFormed g sets.now → AreOperatorStarts g operators.now → IsTrue result ↔ GapBreaks g sets.now node form.now }
{
    match form {
        Form::Expression(_, term) => {
            gap_meets(sets, operators, sets.first(*term), sets.follow(node))
        }
        Form::Leaf(leaf) => {
            leaf.is_declaration() && gap_meets_follow(sets, operators, sets.follow(node))
        }
        Form::Seq(_)
        | Form::Choice(_)
        | Form::Many(_)
        | Form::Chain(_, _, _, _)
        | Form::Rule(_)
        | Form::Around(_, _) => false,
    }
}

/// Whether gaps meet operators, or a start of one of these sets.
fn gap_meets(sets: &Sets, operators: &Option<OperatorStarts>, term: &BitSet, after: &BitSet) -> bool
    ensures { (g : Grammar) → AreWellFormed g sets.now → AreOperatorStarts g operators.now
        → IsTrue result ↔ GapMeetsSome g (HasStart sets.now.starts term.now) (HasStart sets.now.starts after.now) }
{
    if gaps_meet_operators(operators) {
        return true;
    }
    if meets_gaps(sets, operators, term) {
        return true;
    }
    meets_gaps(sets, operators, after)
}

/// Whether gaps meet operators, or a start of this set.
fn gap_meets_follow(sets: &Sets, operators: &Option<OperatorStarts>, after: &BitSet) -> bool
    ensures { (g : Grammar) → AreWellFormed g sets.now → AreOperatorStarts g operators.now
        → IsTrue result ↔ GapMeetsSome g BeginsNothing (HasStart sets.now.starts after.now) }
{
    if gaps_meet_operators(operators) {
        return true;
    }
    meets_gaps(sets, operators, after)
}

/// Whether a start of the set meets operators.
fn meets_operators(sets: &Sets, operators: &Option<OperatorStarts>, set: &BitSet) -> bool
    ensures { (g : Grammar) → AreWellFormed g sets.now → AreOperatorStarts g operators.now
        → IsTrue result ↔ SomeMeet g (HasStart sets.now.starts set.now) (IsOperatorStart g) }
{
    match operators {
        Some(both) => first_met(sets.starts(), set, &both.operator.start).is_some(),
        None => false,
    }
}

/// Whether a start of the set meets gaps.
fn meets_gaps(sets: &Sets, operators: &Option<OperatorStarts>, set: &BitSet) -> bool
    ensures met { result ≡ true → (g : Grammar) → AreWellFormed g sets.now → AreOperatorStarts g operators.now
        → SomeMeet g (HasStart sets.now.starts set.now) (IsGapStart g) }
    ensures apart { result ≡ false → (g : Grammar) → AreWellFormed g sets.now → AreOperatorStarts g operators.now
        → NoneMeet g (HasStart sets.now.starts set.now) (IsGapStart g) }
{
    match operators {
        Some(both) => first_met(sets.starts(), set, &both.gap).is_some(),
        None => false,
    }
}

/// Whether gaps meet operators.
fn gaps_meet_operators(operators: &Option<OperatorStarts>) -> bool
    ensures met { result ≡ true → (g : Grammar) → AreOperatorStarts g operators.now → SomeMeet g (IsOperatorStart g) (IsGapStart g) }
    ensures apart { result ≡ false → (g : Grammar) → AreOperatorStarts g operators.now → NoneMeet g (IsOperatorStart g) (IsGapStart g) }
{
    match operators {
        Some(both) => !apart(&both.operator.start, &both.gap),
        None => false,
    }
}
