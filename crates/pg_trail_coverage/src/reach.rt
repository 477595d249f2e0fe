//! What derivations from the start can reach.

use crate::productive::{is_marked, productive_nodes};
use pg_grammar_form::{Form, NodeId};
use pg_grammar_value::Grammar;
use std::alloc::{AllocError, Global};

/// Which nodes derivations from the start can reach, and which derive something.
#[derive(Drop)]
pub(crate) struct Reach {
    reached: Vec<bool>,
    productive: Vec<bool>,
    /// Whether one of those that are reached is an expression.
    pub has_expression: bool,
}

/// What derivations from the start can reach.
pub(crate) fn reached(alloc: Global, grammar: &Grammar) -> Result<Reach, AllocError> {
    let mut reach = Reach {
        reached: vec![in alloc; false; grammar.nodes().len()]?,
        productive: productive_nodes(alloc, grammar)?,
        has_expression: false,
    };
    let mut left = Vec::new(alloc);
    reach.go_to_rule(grammar, grammar.start_rule().index(), &mut left)?;
    for _ in 0..u64::MAX {
        let Some(node) = left.pop() else {
            break;
        };
        reach.go_on(grammar, node, &mut left)?;
    }
    Ok(reach)
}

impl Reach {
    /// Whether a node is reached.
    pub(crate) fn has(&self, node: usize) -> bool {
        is_marked(self.reached.as_slice(), NodeId::new(node))
    }

    /// Whether a repetition or a chain can have a round.
    pub(crate) fn can_go_round(&self, grammar: &Grammar, node: usize) -> bool {
        match grammar.nodes().get(node) {
            Some(Form::Many(part)) => self.derives(*part),
            Some(Form::Chain(_, _, _, separator)) => self.derives(*separator),
            Some(
                Form::Leaf(_)
                | Form::Seq(_)
                | Form::Choice(_)
                | Form::Rule(_)
                | Form::Expression(_, _)
                | Form::Around(_, _),
            )
            | None => false,
        }
    }

    /// Whether a choice can take its alternative with this number, from 1.
    pub(crate) fn can_choose(&self, grammar: &Grammar, node: usize, number: usize) -> bool {
        let Some(parts) = grammar
            .nodes()
            .get(node)
            .and_then(|node| node.alternatives())
        else {
            return false;
        };
        match parts.as_slice().get(number.saturating_sub(1)) {
            Some(part) => self.derives(*part),
            None => false,
        }
    }

    /// Whether a node derives something.
    fn derives(&self, node: NodeId) -> bool {
        is_marked(self.productive.as_slice(), node)
    }

    /// Goes on from a node to what a derivation of it can reach.
    fn go_on(
        &mut self,
        grammar: &Grammar,
        node: NodeId,
        left: &mut Vec<NodeId>,
    ) -> Result<(), AllocError> {
        let Some(form) = grammar.nodes().get(node.index()) else {
            return Ok(());
        };
        match form {
            Form::Leaf(_) => Ok(()),
            Form::Seq(parts) | Form::Choice(parts) => self.go_to_all(parts.as_slice(), left),
            Form::Many(part) | Form::Around(_, part) => self.go_to(*part, left),
            Form::Chain(_, _, part, separator) => {
                self.go_to(*part, left)?;
                self.go_to(*separator, left)
            }
            Form::Rule(rule) => self.go_to_rule(grammar, rule.index(), left),
            Form::Expression(_, part) => {
                self.has_expression = true;
                self.go_to(*part, left)
            }
        }
    }

    /// Goes to a rule's body.
    fn go_to_rule(
        &mut self,
        grammar: &Grammar,
        rule: usize,
        left: &mut Vec<NodeId>,
    ) -> Result<(), AllocError> {
        match grammar.rules().get(rule) {
            Some(named) => self.go_to(named.body, left),
            None => Ok(()),
        }
    }

    /// Goes to several nodes.
    fn go_to_all(&mut self, nodes: &[NodeId], left: &mut Vec<NodeId>) -> Result<(), AllocError> {
        for node in nodes {
            self.go_to(*node, left)?;
        }
        Ok(())
    }

    /// Goes to a node, if it derives something and wasn't reached yet.
    fn go_to(&mut self, node: NodeId, left: &mut Vec<NodeId>) -> Result<(), AllocError> {
        if !self.derives(node) {
            return Ok(());
        }
        if let Some(mark) = self.reached.get_mut(node.index()) {
            if *mark {
                return Ok(());
            }
            *mark = true;
            left.push(node)?;
        }
        Ok(())
    }
}
