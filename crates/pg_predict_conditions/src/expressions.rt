//! Expressions: a term must not be empty or begin like an operator (C7), what follows must not begin like an operator (C8), and a
//! gap must begin like none of these (C9).
ghost use Rattle.std.specs.Prelude.{◌≡◌};
ghost use Rattle.pg_graph_bits.specs.Numbers.{set_at};
ghost use Rattle.pg_predict_conditions.specs.Judged.{noted_end, noted_start, operators_meet};
ghost use Rattle.pg_predict_conditions.specs.Questions.{found_at, expression_series};

use crate::judge::Judge;
use crate::noting::{found_where, gap_meets};
use crate::violation::ViolationKind;
use pg_grammar_form::NodeId;

/// The violation of an expression over a term that one question finds, if any.
pub(crate) fn ask_expression(
    judge: &Judge,
    node: NodeId,
    term: NodeId,
    question: usize,
) -> Option<ViolationKind<usize>>
    ensures { found_at node result ≡ expression_series judge.now node term question }
{
    match question {
        0 => found_where(judge.is_nullable(term), node, ViolationKind::EmptyOperand),
        1 => operand_meets(judge, node, term),
        2 => follow_meets(judge, node),
        _ => gap_meets(
            judge.gap_met(judge.gaps_meet(judge.first(term)), node),
            node,
        ),
    }
}

/// The violation if the term begins like an operator.
fn operand_meets(judge: &Judge, node: NodeId, term: NodeId) -> Option<ViolationKind<usize>>
    ensures { found_at node result ≡ noted_start (operators_meet judge.now (set_at judge.now.sets.firsts term)) node ViolationKind.OperandMeetsOperators }
{
    match judge.operators_meet(judge.first(term)) {
        Some(start) => Some(ViolationKind::OperandMeetsOperators(start)),
        None => None,
    }
}

/// The violation if what follows the expression begins like an operator.
fn follow_meets(judge: &Judge, node: NodeId) -> Option<ViolationKind<usize>>
    ensures { found_at node result ≡ noted_end judge.now node }
{
    match judge.operators_meet(judge.follow(node)) {
        Some(start) => Some(ViolationKind::FollowMeetsOperators(start)),
        None => None,
    }
}
