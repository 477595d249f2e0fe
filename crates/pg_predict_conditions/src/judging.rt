//! The questions about a node, one by one.
//!
//! Each question finds at most one violation and allocates no memory, so nothing that is found need be kept. The questions
//! are in series: a choice has one for each alternative, with the questions whether it meets each later one.
ghost use Rattle.std.specs.Prelude.{◌≡◌, ◌<◌, ◌+◌};
ghost use Rattle.pg_predict_conditions.specs.Questions.{found_at, form_series_count, node_questions, form_questions, asked_node, asked_form};

use crate::choices::{ask_choice, choice_questions};
use crate::declarations::ask_leaf;
use crate::expressions::ask_expression;
use crate::judge::Judge;
use crate::noting::found_where;
use crate::repetitions::{ask_chain, ask_many};
use crate::violation::ViolationKind;
use pg_grammar_form::{Form, Node, NodeId};

/// How many series of questions a node has: one whether its rule heads itself, and those of its form.
pub fn series_count(form: &Node) -> usize
    ensures { result ≡ form_series_count form.now + 1 }
{
    match form {
        Form::Choice(parts) => parts.as_slice().len() + 3,
        Form::Many(_) | Form::Chain(_, _, _, _) => 3,
        Form::Leaf(_) => 2,
        Form::Expression(_, _) => 5,
        Form::Seq(_) | Form::Rule(_) | Form::Around(_, _) => 1,
    }
}

/// How many questions a series of a node has.
pub fn node_questions(judge: &Judge, form: &Node, series: usize) -> usize
    ensures { result ≡ node_questions judge.now form.now series }
{
    match series.checked_sub(1) {
        None => 1,
        Some(series) => form_questions(judge, form, series),
    }
}

fn form_questions(judge: &Judge, form: &Node, series: usize) -> usize
    ensures { result ≡ form_questions judge.now form.now series }
{
    match form.alternatives() {
        Some(parts) => choice_questions(judge, parts.as_slice(), series),
        None => 1,
    }
}

/// The violation that one question of a series finds at a node, if any.
pub fn ask_node(
    judge: &Judge,
    node: NodeId,
    form: &Node,
    series: usize,
    question: usize,
) -> Option<ViolationKind<usize>>
    requires { question < node_questions judge.now form.now series }
    ensures { found_at node result ≡ asked_node judge.now node form.now series question }
{
    match series.checked_sub(1) {
        None => found_where(
            judge.is_recursive(node.index()),
            node,
            ViolationKind::LeftRecursion,
        ),
        Some(series) => ask_form(judge, node, form, series, question),
    }
}

/// The violation of a node's form that one question of a series finds, if any.
fn ask_form(
    judge: &Judge,
    node: NodeId,
    form: &Node,
    series: usize,
    question: usize,
) -> Option<ViolationKind<usize>>
    requires { question < form_questions judge.now form.now series }
    ensures { found_at node result ≡ asked_form judge.now node form.now series question }
{
    match form {
        Form::Choice(parts) => ask_choice(judge, node, parts.as_slice(), series, question),
        Form::Many(part) => ask_many(judge, node, *part, series),
        Form::Chain(_, _, operand, separator) => {
            ask_chain(judge, node, *operand, *separator, series)
        }
        Form::Leaf(leaf) => ask_leaf(judge, node, leaf),
        Form::Expression(_, term) => ask_expression(judge, node, *term, series),
        Form::Seq(_) | Form::Rule(_) | Form::Around(_, _) => None,
    }
}
