//! Rounds that read one character each.

use pg_grammar_form::{Form, Leaf, NodeId, RuleId};
use pg_grammar_value::Grammar;
use pg_trail_replay::{ShortTask, Task};

/// How many characters a task reads, if it is rounds of one character of a class each.
pub(crate) fn single_characters(grammar: &Grammar, task: &Task<'_>) -> Option<usize> {
    match task {
        Task::Short(ShortTask::Rounds { part, left }) if reads_one(grammar, *part) => Some(*left),
        Task::Short(_) | Task::Rounds(_) | Task::Close(_) | Task::Leave(_) => None,
    }
}

/// Whether the node reads one character of a class, whatever is made of it.
fn reads_one(grammar: &Grammar, node: NodeId) -> bool {
    let mut place = node.index();
    for _ in 0..grammar.nodes().len() {
        match grammar.nodes().get(place) {
            Some(Form::Leaf(leaf)) => return is_character(leaf),
            Some(Form::Rule(rule)) => place = body_of(grammar, *rule),
            Some(Form::Around(_, part)) => place = part.index(),
            Some(Form::Seq(_) | Form::Choice(_) | Form::Many(_) | Form::Chain(_, _, _, _))
            | Some(Form::Expression(_, _))
            | None => return false,
        }
    }
    false
}

/// Whether the leaf reads one character of a class.
fn is_character<W>(leaf: &Leaf<W>) -> bool {
    match leaf {
        Leaf::Satisfy(_) => true,
        Leaf::String(_)
        | Leaf::Word(_)
        | Leaf::NotFollowedBy(_)
        | Leaf::EndOfText
        | Leaf::Declare(_) => false,
    }
}

/// The node of a rule's body, or a place behind all nodes if there is no such rule.
fn body_of(grammar: &Grammar, rule: RuleId) -> usize {
    match grammar.rules().get(rule.index()) {
        Some(rule) => rule.body.index(),
        None => grammar.nodes().len(),
    }
}
