//! The rules and nodes through which a start comes to where it meets another.

use crate::steps::Steps;
use pg_explain_context::{
    Known, SetOf, body_place, mention, rule_name, span_of, way_of_start, written_at,
};
use pg_grammar_form::{Form, NodeId};
use std::alloc::{AllocError, Global};

/// How the start with this number comes to begin a node, in words.
pub(crate) fn first_chain(
    alloc: Global,
    known: &Known,
    start: usize,
    node: NodeId,
) -> Result<String, AllocError> {
    chain(alloc, known, start, SetOf::First(node.index()))
}

/// How the start with this number comes to follow a node, in words.
pub(crate) fn follow_chain(
    alloc: Global,
    known: &Known,
    start: usize,
    node: NodeId,
) -> Result<String, AllocError> {
    chain(alloc, known, start, SetOf::Follow(node.index()))
}

/// A shortest way from a set back to one that has the start by itself, in words.
fn chain(alloc: Global, known: &Known, start: usize, set: SetOf) -> Result<String, AllocError> {
    let way = way_of_start(alloc, known, start, set)?;
    told_way(alloc, known, &way)
}

/// The steps of a way from set to set, in words.
fn told_way(alloc: Global, known: &Known, way: &[usize]) -> Result<String, AllocError> {
    let mut steps = Steps::new(alloc);
    let [first, after @ ..] = way else {
        return steps.text(alloc);
    };
    let mut to = *first;
    for from in after {
        tell_step(
            alloc,
            known,
            SetOf::at(known, to),
            SetOf::at(known, *from),
            &mut steps,
        )?;
        to = *from;
    }
    tell_end(alloc, known, SetOf::at(known, to), &mut steps)?;
    steps.text(alloc)
}

/// Appends how a start comes from one set to the other.
fn tell_step(
    alloc: Global,
    known: &Known,
    to: SetOf,
    from: SetOf,
    steps: &mut Steps,
) -> Result<(), AllocError> {
    match (to, from) {
        (SetOf::First(node), SetOf::First(part)) => {
            tell_front(alloc, known, NodeId::new(node), NodeId::new(part), steps)
        }
        (SetOf::Follow(node), SetOf::First(next)) => {
            tell_next(alloc, NodeId::new(node), NodeId::new(next), steps)
        }
        (SetOf::Follow(node), SetOf::Follow(other)) => {
            tell_after(alloc, known, NodeId::new(node), NodeId::new(other), steps)
        }
        (SetOf::First(_), SetOf::Follow(_)) => Ok(()),
    }
}

/// Appends how a node begins with a part: through a rule, or after parts that can be empty.
fn tell_front(
    alloc: Global,
    known: &Known,
    node: NodeId,
    part: NodeId,
    steps: &mut Steps,
) -> Result<(), AllocError> {
    match known.form(node) {
        Some(Form::Rule(rule)) => {
            let name = rule_name(alloc, known, rule.index())?;
            steps.tell_at(alloc, known, name, body_place(known, rule.index()))
        }
        Some(Form::Seq(parts)) => tell_passed(alloc, known, parts.as_slice(), part, steps),
        Some(Form::Chain(_, _, operand, separator)) => {
            tell_passed(alloc, known, &[*operand, *separator], part, steps)
        }
        Some(
            Form::Leaf(_)
            | Form::Choice(_)
            | Form::Many(_)
            | Form::Expression(_, _)
            | Form::Around(_, _),
        )
        | None => Ok(()),
    }
}

/// Appends that the parts before one can be empty, if there are any.
fn tell_passed(
    alloc: Global,
    known: &Known,
    parts: &[NodeId],
    part: NodeId,
    steps: &mut Steps,
) -> Result<(), AllocError> {
    for passed in parts {
        if *passed == part {
            return Ok(());
        }
        tell_empty(alloc, known, *passed, steps)?;
    }
    Ok(())
}

/// Appends that a node can be empty, ahead of a further step.
fn tell_empty(
    alloc: Global,
    known: &Known,
    node: NodeId,
    steps: &mut Steps,
) -> Result<(), AllocError> {
    let node = mention(alloc, known, node)?;
    let words = format!(in alloc; "{node} can be empty and then")?;
    steps.lead(words)
}

/// Appends that the next round follows, where a node follows itself.
fn tell_next(
    alloc: Global,
    node: NodeId,
    next: NodeId,
    steps: &mut Steps,
) -> Result<(), AllocError> {
    if node == next {
        steps.tell(String::from_str(alloc, "the next round")?)
    } else {
        Ok(())
    }
}

/// Appends why what follows the other node also follows this one: this one ends a use of its rule, or the other can be empty. In the numbering, a node comes
/// before its parts, and the next part comes right after it.
fn tell_after(
    alloc: Global,
    known: &Known,
    node: NodeId,
    other: NodeId,
    steps: &mut Steps,
) -> Result<(), AllocError> {
    if is_body(known, node) {
        let other = mention(alloc, known, other)?;
        let words = format!(in alloc; "what follows {other}")?;
        return steps.tell(words);
    }
    if other.index() > node.index() {
        return tell_empty(alloc, known, other, steps);
    }
    Ok(())
}

/// Whether a node is the body of a rule.
fn is_body(known: &Known, node: NodeId) -> bool {
    known.grammar.rules().iter().any(|rule| rule.body == node)
}

/// Appends where a start comes from.
fn tell_end(alloc: Global, known: &Known, set: SetOf, steps: &mut Steps) -> Result<(), AllocError> {
    match set {
        SetOf::First(node) => {
            let node = NodeId::new(node);
            let words = written_at(alloc, known, node)?;
            steps.tell_at(alloc, known, words, span_of(known, node).first)
        }
        SetOf::Follow(node) => tell_last(alloc, known, NodeId::new(node), steps),
    }
}

/// Appends what follows a node by itself: the end of the text after the start rule, or operators.
fn tell_last(
    alloc: Global,
    known: &Known,
    node: NodeId,
    steps: &mut Steps,
) -> Result<(), AllocError> {
    if is_body(known, node) {
        let start = rule_name(alloc, known, known.grammar.start_rule().index())?;
        let words = format!(in alloc; "the start rule {start} ends")?;
        return steps.tell(words);
    }
    let term = mention(alloc, known, node)?;
    let words = format!(in alloc; "operators follow {term}")?;
    steps.tell(words)
}
