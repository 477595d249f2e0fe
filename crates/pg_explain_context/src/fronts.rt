//! Where a rule begins with another.

use crate::known::Known;
use pg_grammar_form::{Form, NodeId, RuleId};
use std::alloc::{AllocError, Global};

/// The first use of the rule that the node can begin with, before anything is consumed, if there is one. Fails where memory runs out.
pub fn front_use(
    alloc: Global,
    known: &Known,
    node: NodeId,
    rule: RuleId,
) -> Result<Option<NodeId>, AllocError> {
    let mut open = Vec::new(alloc);
    open.push(node)?;
    for _ in 0..known.count() {
        let Some(node) = open.pop() else {
            break;
        };
        if is_use(known, node, rule) {
            return Ok(Some(node));
        }
        open_fronts(known, node, &mut open)?;
    }
    Ok(None)
}

/// Whether a node is a use of this rule.
fn is_use(known: &Known, node: NodeId, rule: RuleId) -> bool {
    known.rule_used(node) == Some(rule)
}

/// Puts the parts that a node can begin with on the stack, the first of them on top.
fn open_fronts(known: &Known, node: NodeId, open: &mut Vec<NodeId>) -> Result<(), AllocError> {
    match known.form(node) {
        Some(Form::Choice(parts)) => open_all(parts.as_slice(), open),
        Some(Form::Seq(parts)) => open_all(fronts(known, parts.as_slice()), open),
        Some(Form::Chain(_, _, operand, separator)) => {
            open_all(fronts(known, &[*operand, *separator]), open)
        }
        Some(Form::Many(part) | Form::Expression(_, part) | Form::Around(_, part)) => {
            open.push(*part)?;
            Ok(())
        }
        Some(Form::Leaf(_) | Form::Rule(_)) | None => Ok(()),
    }
}

fn open_all(parts: &[NodeId], open: &mut Vec<NodeId>) -> Result<(), AllocError> {
    for part in parts.iter().rev() {
        open.push(*part)?;
    }
    Ok(())
}

/// The parts up to and including the first that isn't nullable.
fn fronts<'p>(known: &Known, parts: &'p [NodeId]) -> &'p [NodeId] {
    for (before, part) in parts.iter().enumerate() {
        if !known.sets.nullable(*part) {
            return match parts.get(..=before) {
                Some(front) => front,
                None => parts,
            };
        }
    }
    parts
}
