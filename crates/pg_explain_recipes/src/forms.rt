//! Questions about the forms that starts come from.

use pg_class::Class;
use pg_explain_context::{Known, SetOf};
use pg_grammar_form::{Form, NodeId};
use pg_start::StartKind;

/// The most forms around a part, or uses of rules, that a look-up passes.
const DEPTH: usize = 8;

/// The kind of form that a start comes from.
#[derive(Clone, Copy, Debug, PartialEq, Eq)]
pub(crate) enum Origin {
    /// A string, possibly in a `try` together with what may not follow it.
    String,
    Word,
    Class,
    Other,
}

/// The node that the way's start comes from; `None` if that is what follows the start rule, or operators.
pub(crate) fn end_of(known: &Known, way: &[usize]) -> Option<NodeId> {
    let last = way.last()?;
    match SetOf::at(known, *last) {
        SetOf::First(node) => Some(NodeId::new(node)),
        SetOf::Follow(_) => None,
    }
}

/// The kind of form at a node that a start comes from.
pub(crate) fn origin_at(known: &Known, node: NodeId) -> Origin {
    if !string_at(known, node).is_empty() {
        return Origin::String;
    }
    let Some(form) = known.form(node) else {
        return Origin::Other;
    };
    if form.named_word().is_some() {
        Origin::Word
    } else if form.class().is_some() {
        Origin::Class
    } else {
        Origin::Other
    }
}

/// The string at a node, or in a `try` there; empty if there is none.
pub(crate) fn string_at<'k>(known: &'k Known, node: NodeId) -> &'k [char] {
    let Some(form) = known.form(tried(known, node)) else {
        return &[];
    };
    match form.string() {
        Some(characters) => characters.as_slice(),
        None => &[],
    }
}

/// The first part inside a `try` at a node, or the node itself.
fn tried(known: &Known, node: NodeId) -> NodeId {
    let Some(Form::Around(around, part)) = known.form(node) else {
        return node;
    };
    if around.is_try() {
        first_part(known, *part)
    } else {
        node
    }
}

/// The first part of a sequence, or the node itself.
fn first_part(known: &Known, node: NodeId) -> NodeId {
    match parts_of(known, node) {
        [first, ..] => *first,
        [] => node,
    }
}

/// The parts of a sequence; empty for any other form.
pub(crate) fn parts_of<'k>(known: &'k Known, node: NodeId) -> &'k [NodeId] {
    let Some(form) = known.form(node) else {
        return &[];
    };
    match form.sequence() {
        Some(parts) => parts.as_slice(),
        None => &[],
    }
}

/// The node inside the forms around a part and uses of rules that begin at this node.
pub(crate) fn within(known: &Known, node: NodeId) -> NodeId {
    let mut node = node;
    for _ in 0..DEPTH {
        node = one_within(known, node);
    }
    node
}

/// The part inside a form around it, or the body of the rule used; else the node itself.
fn one_within(known: &Known, node: NodeId) -> NodeId {
    if let Some(Form::Around(_, part)) = known.form(node) {
        return *part;
    }
    let Some(rule) = known.rule_used(node) else {
        return node;
    };
    match known.rule(rule.index()) {
        Some(rule) => rule.body,
        None => node,
    }
}

/// The part after a node in its sequence. The node may be there inside forms around it.
pub(crate) fn behind(known: &Known, node: NodeId) -> Option<NodeId> {
    let mut node = node;
    for _ in 0..DEPTH {
        if let Some(next) = next_part(known, node) {
            return Some(next);
        }
        node = holder(known, node)?;
    }
    None
}

/// The part after a node in a sequence that has it as a part.
fn next_part(known: &Known, node: NodeId) -> Option<NodeId> {
    for form in known.grammar.nodes() {
        if let Some(parts) = form.sequence() {
            if let Some(next) = part_behind(parts.as_slice(), node) {
                return Some(next);
            }
        }
    }
    None
}

/// The part after one of these.
fn part_behind(parts: &[NodeId], node: NodeId) -> Option<NodeId> {
    let mut is_next = false;
    for part in parts {
        if is_next {
            return Some(*part);
        }
        is_next = *part == node;
    }
    None
}

/// The form directly around a node.
fn holder(known: &Known, node: NodeId) -> Option<NodeId> {
    for (number, form) in known.grammar.nodes().iter().enumerate() {
        if let Form::Around(_, part) = form {
            if *part == node {
                return Some(NodeId::new(number));
            }
        }
    }
    None
}

/// Whether a string is the mark of a comment to the end of the line: what follows it can begin with any character but a line feed.
pub(crate) fn is_mark(known: &Known, node: NodeId) -> bool {
    match behind(known, node) {
        Some(next) => begins_with_line(known, next),
        None => false,
    }
}

/// Whether a node can begin with any character of a line.
fn begins_with_line(known: &Known, node: NodeId) -> bool {
    let first = known.sets.first(node);
    for number in 0..known.sets.starts().len() {
        if first.contains(number) && is_line(heads(known, number)) {
            return true;
        }
    }
    false
}

/// The characters that a start begins with: those of a class or the heads of a word.
pub(crate) fn heads<'k>(known: &'k Known, start: usize) -> Option<&'k Class> {
    match known.start(start)?.start.view() {
        StartKind::Class(class) | StartKind::Word(class, _, _) => Some(class),
        StartKind::Key(_, _) | StartKind::End => None,
    }
}

/// Whether the class has blanks and letters but no line feed, as characters of a line do.
pub(crate) fn is_line(class: Option<&Class>) -> bool {
    match class {
        Some(class) => class.has(' ') && class.has('a') && !class.has('\n'),
        None => false,
    }
}

/// Whether the class has blanks and letters.
pub(crate) fn is_wide(class: Option<&Class>) -> bool {
    match class {
        Some(class) => class.has(' ') && class.has('a'),
        None => false,
    }
}

/// Whether the class has blanks but no letters.
pub(crate) fn is_blank(class: Option<&Class>) -> bool {
    match class {
        Some(class) => class.has(' ') && !class.has('a'),
        None => false,
    }
}

/// Whether one of the alternatives of a choice is the end of the text.
pub(crate) fn may_end(known: &Known, node: NodeId) -> bool {
    known
        .alternatives(node)
        .iter()
        .any(|part| is_end(known, within(known, *part)))
}

/// Whether the node is the end of the text.
fn is_end(known: &Known, node: NodeId) -> bool {
    match known.form(node) {
        Some(Form::Leaf(leaf)) => matches!(leaf, pg_grammar_form::Leaf::EndOfText),
        Some(
            Form::Seq(_)
            | Form::Choice(_)
            | Form::Many(_)
            | Form::Chain(_, _, _, _)
            | Form::Rule(_)
            | Form::Expression(_, _)
            | Form::Around(_, _),
        )
        | None => false,
    }
}
