//! The candidates that may show a finding.

use crate::asks::{Ask, Asks, Shows};
use pg_explain_samples::{Basis, Target, Want, alternatives, form_at};
use pg_grammar_form::{Form, NodeId};
use pg_grammar_value::Grammar;
use pg_predict::ViolationKind;
use pg_table::Table;
use std::alloc::{AllocError, Global};

/// The drafts wanted for a finding at a node. Their guides may use this character.
pub(crate) fn asks_of<'g>(
    alloc: Global,
    basis: &'g Basis<'g>,
    table: &'g Table,
    node: NodeId,
    kind: &ViolationKind<usize>,
    character: Option<char>,
) -> Result<Vec<Ask>, AllocError> {
    let mut asks = Asks {
        basis,
        table,
        character,
        asks: Vec::new(alloc),
        starved: false,
    };
    asks.ask(node, kind);
    let Asks { asks, starved, .. } = asks;
    if starved { Err(AllocError) } else { Ok(asks) }
}

impl Asks<'_> {
    /// Adds the wishes for a finding at a node.
    fn ask(&mut self, node: NodeId, kind: &ViolationKind<usize>) {
        match kind {
            ViolationKind::LeftRecursion => {
                self.run(Target::Stop, Shows::Reentry);
                self.run(Target::Whole(Want::Any), Shows::Reentry);
            }
            ViolationKind::EmptyRound => self.empty_round(node),
            ViolationKind::EmptyAlternative(k) => self.alternatives(*k, self.count(node)),
            ViolationKind::AlternativesMeet(j, k, one, other) => {
                let target = Target::Alternative(k.saturating_sub(1), Want::Guide);
                let first = self.alternative(node, *j);
                self.meeting(target, false, first, *one, *other);
            }
            ViolationKind::AlternativeMeetsFollow(k, one, other) => {
                let last = self.count(node).saturating_sub(1);
                let target = Target::Alternative(last, Want::Nothing);
                let first = self.alternative(node, *k);
                self.meeting(target, true, first, *one, *other);
            }
            ViolationKind::RoundMeetsFollow(one, other) => {
                for count in 0..2 {
                    let round = round_of(self.basis.grammar, node);
                    self.meeting(Target::Rounds(count), true, round, *one, *other);
                }
            }
            ViolationKind::EmptyOperand => self.bare_operators(),
            ViolationKind::OperandMeetsOperators(_) => {
                self.symbols(Target::Whole(Want::Guide), false);
                self.operators_with(Want::Guide, false);
            }
            ViolationKind::FollowMeetsOperators(_) => self.symbols(Target::Whole(Want::Any), true),
            ViolationKind::GapMeets(_) => {
                self.operators_with(Want::Guide, false);
                self.begun(Target::Whole(Want::Any), true);
                self.operators_with(Want::Any, true);
            }
            ViolationKind::StepCostOver => {}
        }
    }

    /// Leads to a repetition with nothing there, with no round or with one. A chain then goes on for ever, and a `many` stops.
    fn empty_round(&mut self, node: NodeId) {
        let shows = shown_by_empty_round(self.basis.grammar, node);
        self.run(Target::Stop, shows);
        self.run(Target::Rounds(0), shows);
        self.run(Target::Rounds(1), shows);
    }

    /// How many alternatives there are.
    fn count(&self, node: NodeId) -> usize {
        alternatives(self.basis.grammar, node).len()
    }

    /// The alternative with this number, counting from 1.
    fn alternative(&self, node: NodeId, number: usize) -> Option<NodeId> {
        alternatives(self.basis.grammar, node)
            .get(number.saturating_sub(1))
            .copied()
    }
}

/// The part that begins each round of a repetition: the part of a `many`, or the separator of a chain.
fn round_of(grammar: &Grammar, node: NodeId) -> Option<NodeId> {
    match form_at(grammar, node) {
        Some(Form::Many(part) | Form::Chain(_, _, _, part)) => Some(*part),
        Some(
            Form::Leaf(_)
            | Form::Seq(_)
            | Form::Choice(_)
            | Form::Rule(_)
            | Form::Expression(_, _)
            | Form::Around(_, _),
        )
        | None => None,
    }
}

/// What would show that a round of the node consumes nothing.
fn shown_by_empty_round(grammar: &Grammar, node: NodeId) -> Shows {
    match form_at(grammar, node) {
        Some(Form::Chain(_, _, _, _)) => Shows::EmptyLink,
        Some(
            Form::Leaf(_)
            | Form::Seq(_)
            | Form::Choice(_)
            | Form::Many(_)
            | Form::Rule(_)
            | Form::Expression(_, _)
            | Form::Around(_, _),
        )
        | None => Shows::EmptyRound,
    }
}
