//! The questions at a node, one by one, from any point on.
//!
//! They are in series (`pg_predict_conditions`). The last question, after all series, is whether a step cost above the limit is reported at the node.
//! Every search for violations goes through here: no other function asks the questions.
ghost use Rattle.std.specs.Prelude.{◌≡◌, ◌∷◌, [], MatchOption};
ghost use Rattle.pg_predict.specs.Rest.{rest_at, rest_of_series, rest_of_cost};

use pg_grammar_form::{Node, NodeId};
use pg_predict_conditions::{Judge, ViolationKind, ask_node, node_questions, series_count};

/// The next question at a node: the number of its series, and its own.
#[derive(Clone, Copy)]
pub(crate) struct Asking {
    pub(crate) series: usize,
    pub(crate) question: usize,
}

impl Asking {
    /// The first question.
    pub(crate) fn first() -> Asking
        ensures { result ≡ record { series = 0; question = 0 } }
    {
        Asking {
            series: 0,
            question: 0,
        }
    }
}

/// The next violation at a node; none if the rest of the questions find none. The next question is then the one after it.
pub(crate) fn find_next(
    judge: &Judge,
    node: NodeId,
    form: &Node,
    asking: &mut Asking,
) -> Option<ViolationKind<usize>>
    ensures { MatchOption result (rest_at judge.now node form.now asking.old ≡ []) (λ kind. rest_at judge.now node form.now asking.old ≡ record { node = node; kind = kind } ∷ rest_at judge.now node form.now asking.new) }
{
    let count = series_count(form);
    for series in asking.series..count {
        if let Some(kind) = find_in_series(judge, node, form, series, &mut asking.question) {
            asking.series = series;
            return Some(kind);
        }
        asking.question = 0;
    }
    asking.series = count;
    find_cost(judge, node, &mut asking.question)
}

/// The next violation in a series; none if the rest of its questions find none.
fn find_in_series(
    judge: &Judge,
    node: NodeId,
    form: &Node,
    series: usize,
    question: &mut usize,
) -> Option<ViolationKind<usize>>
    ensures { MatchOption result (rest_of_series judge.now node form.now series question.old ≡ []) (λ kind. rest_of_series judge.now node form.now series question.old ≡ record { node = node; kind = kind } ∷ rest_of_series judge.now node form.now series question.new) }
{
    for next in *question..node_questions(judge, form, series) {
        if let Some(kind) = ask_node(judge, node, form, series, next) {
            *question = next + 1;
            return Some(kind);
        }
    }
    None
}

/// The violation if a step cost above the limit is reported at this node and hasn't been reported yet.
fn find_cost(judge: &Judge, node: NodeId, question: &mut usize) -> Option<ViolationKind<usize>>
    ensures { MatchOption result (rest_of_cost judge.now node question.old ≡ []) (λ kind. rest_of_cost judge.now node question.old ≡ record { node = node; kind = kind } ∷ rest_of_cost judge.now node question.new) }
{
    if *question == 0 && judge.is_costly(node) {
        *question = 1;
        return Some(ViolationKind::StepCostOver);
    }
    None
}
