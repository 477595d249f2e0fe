//! The turns of a grammar, and which of them are possible and taken.

use crate::reach::{Reach, reached};
use crate::turn::{Turn, What};
use crate::walk::walk;
use pg_grammar_form::{Form, Node, Role};
use pg_grammar_value::{Fixity, Grammar, Trail};
use std::alloc::{AllocError, Global};

/// What trails have taken of a grammar.
#[derive(Drop)]
pub struct Coverage {
    /// For each node, the index of its first turn.
    begins: Vec<usize>,
    /// The turns, node by node, and behind them those of the operators.
    turns: Vec<Turn>,
    /// The index of the first operator's.
    operators: usize,
}

impl Coverage {
    /// No turns, for whoever asks for none. It takes no memory.
    pub fn empty(alloc: Global) -> Coverage {
        Coverage {
            begins: Vec::new(alloc),
            turns: Vec::new(alloc),
            operators: 0,
        }
    }

    /// The turns of a grammar, of which none is taken. The only error is that memory runs out.
    pub fn new(alloc: Global, grammar: &Grammar) -> Result<Coverage, AllocError> {
        let mut coverage = Coverage::empty(alloc);
        coverage.add_nodes(grammar)?;
        coverage.operators = coverage.turns.len();
        coverage.add_operators(grammar)?;
        coverage.ask(alloc, grammar)?;
        Ok(coverage)
    }

    /// Adds the turns of all nodes.
    fn add_nodes(&mut self, grammar: &Grammar) -> Result<(), AllocError> {
        let nodes = grammar.nodes();
        for number in 0..nodes.len() {
            self.begins.push(self.turns.len())?;
            self.add_node(number, &nodes[number])?;
        }
        Ok(())
    }

    /// Adds the turns of a node.
    fn add_node(&mut self, number: usize, node: &Node) -> Result<(), AllocError> {
        match node {
            Form::Choice(parts) => self.add_alternatives(number, parts.as_slice().len()),
            Form::Many(_) | Form::Chain(_, _, _, _) => self.add_rounds(number),
            Form::Leaf(_)
            | Form::Seq(_)
            | Form::Rule(_)
            | Form::Expression(_, _)
            | Form::Around(_, _) => Ok(()),
        }
    }

    /// Adds the turns of a choice with so many alternatives.
    fn add_alternatives(&mut self, number: usize, count: usize) -> Result<(), AllocError> {
        for alternative in 0..count {
            let what = What::Alternative(alternative.saturating_add(1));
            self.turns.push(Turn::new(number, what))?;
        }
        Ok(())
    }

    /// Adds the turns of a repetition or a chain.
    fn add_rounds(&mut self, number: usize) -> Result<(), AllocError> {
        self.turns.push(Turn::new(number, What::NoRound))?;
        self.turns.push(Turn::new(number, What::OneRound))?;
        self.turns.push(Turn::new(number, What::MoreRounds))?;
        Ok(())
    }

    /// Adds the turns of the initial operators.
    fn add_operators(&mut self, grammar: &Grammar) -> Result<(), AllocError> {
        for index in 0..grammar.initials().len() {
            let turn = Turn::new(grammar.nodes().len(), What::Operator(index));
            self.turns.push(turn)?;
        }
        Ok(())
    }

    /// Notes which turns are possible.
    fn ask(&mut self, alloc: Global, grammar: &Grammar) -> Result<(), AllocError> {
        let reach = reached(alloc, grammar)?;
        for turn in self.turns.iter_mut() {
            turn.is_possible = can_be_taken(grammar, &reach, *turn);
        }
        Ok(())
    }

    /// Notes the turns that a trail takes, whose first item is the start rule's. The only error is that memory runs out.
    pub fn take(
        &mut self,
        alloc: Global,
        grammar: &Grammar,
        trail: &Trail,
    ) -> Result<(), AllocError> {
        walk(alloc, grammar, trail.items(), self)
    }

    /// Notes the alternative that a choice took, counted from 1.
    pub(crate) fn take_alternative(&mut self, node: usize, alternative: usize) {
        self.note(node, alternative.saturating_sub(1));
    }

    /// Notes how many rounds a repetition had.
    pub(crate) fn take_rounds(&mut self, node: usize, count: usize) {
        self.note(node, count.min(2));
    }

    /// Notes a turn of a node.
    fn note(&mut self, node: usize, number: usize) {
        let Some(begin) = self.begins.get(node) else {
            return;
        };
        if let Some(turn) = self.turns.get_mut(begin.saturating_add(number)) {
            turn.is_taken = true;
        }
    }

    /// Notes an operator that was read, if it is one of the initial table.
    pub(crate) fn take_operator(&mut self, grammar: &Grammar, fixity: Fixity, symbol: &[char]) {
        let initials = grammar.initials();
        for index in 0..initials.len() {
            let initial = &initials[index];
            if initial.symbol() == symbol && is_of(initial.role(), fixity) {
                let place = self.operators.saturating_add(index);
                if let Some(turn) = self.turns.get_mut(place) {
                    turn.is_taken = true;
                }
            }
        }
    }

    /// The turns, node by node, and then those of the operators.
    pub fn turns(&self) -> &[Turn] {
        self.turns.as_slice()
    }
}

/// Whether an operator of a role stands so.
fn is_of(role: Role, fixity: Fixity) -> bool {
    match role {
        Role::InfixLeft | Role::InfixRight | Role::InfixNone => fixity == Fixity::Infix,
        Role::Prefix => fixity == Fixity::Prefix,
        Role::Postfix => fixity == Fixity::Postfix,
    }
}

/// Whether a derivation from the start can take a turn.
fn can_be_taken(grammar: &Grammar, reach: &Reach, turn: Turn) -> bool {
    match turn.what {
        What::Operator(_) => reach.has_expression,
        What::NoRound => reach.has(turn.node),
        What::OneRound | What::MoreRounds => {
            reach.has(turn.node) && reach.can_go_round(grammar, turn.node)
        }
        What::Alternative(number) => {
            reach.has(turn.node) && reach.can_choose(grammar, turn.node, number)
        }
    }
}
