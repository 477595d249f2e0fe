//! Repetitions: a round must not be empty (C2), and must not begin like what follows (C6).
ghost use Rattle.std.specs.Prelude.{◌≡◌};
ghost use Rattle.pg_predict_conditions.specs.Judged.{noted_meeting};
ghost use Rattle.pg_predict_conditions.specs.Questions.{found_at, many_series, chain_series};

use crate::judge::Judge;
use crate::meetings::Meeting;
use crate::noting::found_where;
use crate::violation::ViolationKind;
use pg_grammar_form::NodeId;

/// The violation of a many that one question finds, if any; its round is its part.
pub(crate) fn ask_many(
    judge: &Judge,
    node: NodeId,
    part: NodeId,
    question: usize,
) -> Option<ViolationKind<usize>>
    ensures { found_at node result ≡ many_series judge.now node part question }
{
    match question {
        0 => found_where(judge.is_nullable(part), node, ViolationKind::EmptyRound),
        _ => round_meets(judge.follow_meeting(part, node), node),
    }
}

/// The violation of a chain that one question finds, if any; its round is a separator and an operand.
pub(crate) fn ask_chain(
    judge: &Judge,
    node: NodeId,
    operand: NodeId,
    separator: NodeId,
    question: usize,
) -> Option<ViolationKind<usize>>
    ensures { found_at node result ≡ chain_series judge.now node operand separator question }
{
    match question {
        0 => {
            let empty_link = judge.is_nullable(separator) && judge.is_nullable(operand);
            found_where(empty_link, node, ViolationKind::EmptyRound)
        }
        _ => round_meets(judge.link_meeting(operand, separator, node), node),
    }
}

/// The violation if a round meets what follows the repetition.
fn round_meets(meeting: Option<Meeting>, node: NodeId) -> Option<ViolationKind<usize>>
    ensures { found_at node result ≡ noted_meeting meeting node ViolationKind.RoundMeetsFollow }
{
    match meeting {
        Some(met) => Some(ViolationKind::RoundMeetsFollow(met.one, met.other)),
        None => None,
    }
}
