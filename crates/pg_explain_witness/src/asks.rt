//! The list of drafts wanted for a finding.

use crate::met::{key_at, next_of_word};
use pg_explain_samples::{Basis, Target, Want};
use pg_grammar_form::NodeId;
use pg_table::Table;

/// The most operators, or alternatives, that are tried.
const MOST_TRIED: usize = 4;

/// What would show a finding.
#[derive(Clone, Copy)]
pub(crate) enum Shows {
    /// The parser loses a derivation at the node.
    Loss,
    /// The parser enters the node's rule again at one place, so it never answers.
    Reentry,
    /// A link of the node consumes nothing, so the parser never answers.
    EmptyLink,
    /// A round of the node consumes nothing.
    EmptyRound,
}

/// What a text should begin with.
#[derive(Clone, Copy)]
pub(crate) enum Guide {
    /// This character, if there is one.
    Character(Option<char>),
    /// The key of the start with this number, and one more character, if there is one.
    Key(usize, Option<char>),
    /// The symbol of the operator with this number in the table.
    Symbol(usize),
    /// The beginning of a text of the node that begins with the character.
    Part(NodeId, char),
}

/// A wish for drafts.
#[derive(Clone, Copy)]
pub(crate) struct Ask {
    /// What happens at the node.
    pub(crate) target: Target,
    /// What the node's text, or what follows it, should begin with.
    pub(crate) guide: Guide,
    /// Whether the guide is for what follows the node.
    pub(crate) follow: bool,
    /// What would show the finding.
    pub(crate) shows: Shows,
}

/// The wishes, and what they are made from.
#[derive(Drop)]
pub(crate) struct Asks<'g> {
    pub(crate) basis: &'g Basis<'g>,
    pub(crate) table: &'g Table,
    /// The first character of guides, if there is one.
    pub(crate) character: Option<char>,
    pub(crate) asks: Vec<Ask>,
    /// Whether memory ran out.
    pub(crate) starved: bool,
}

impl<'g> Asks<'g> {
    /// Wishes for a text to run as it is, even if the grammar doesn't derive it.
    pub(crate) fn run(&mut self, target: Target, shows: Shows) {
        self.add(target, Guide::Character(None), false, shows);
    }

    /// Wishes for a derived text, with this guide.
    fn derive(&mut self, target: Target, guide: Guide, follow: bool) {
        self.add(target, guide, follow, Shows::Loss);
    }

    fn add(&mut self, target: Target, guide: Guide, follow: bool, shows: Shows) {
        let ask = Ask {
            target,
            guide,
            follow,
            shows,
        };
        if self.asks.push(ask).is_err() {
            self.starved = true;
        }
    }

    /// Wishes for texts of some alternatives, beginning after the first `from` and within the first `count`: nonempty texts, then empty ones.
    pub(crate) fn alternatives(&mut self, from: usize, count: usize) {
        self.alternatives_with(from, count, Want::Some);
        self.alternatives_with(from, count, Want::Nothing);
    }

    fn alternatives_with(&mut self, from: usize, count: usize, want: Want) {
        for number in from..count.min(from.saturating_add(MOST_TRIED)) {
            self.derive(
                Target::Alternative(number, want),
                Guide::Character(None),
                false,
            );
        }
    }

    /// Wishes for texts that begin with the character, as a text of the part does, or with the key of the one start. A word of the other start may continue
    /// the key.
    pub(crate) fn meeting(
        &mut self,
        target: Target,
        follow: bool,
        part: Option<NodeId>,
        one: usize,
        other: usize,
    ) {
        let Some(c) = self.character else {
            return;
        };
        self.derive(target, Guide::Character(Some(c)), follow);
        if let Some(part) = part {
            self.derive(target, Guide::Part(part, c), follow);
        }
        if let Some((_, excluded)) = key_at(self.basis, one) {
            self.derive(target, Guide::Key(one, None), follow);
            if let Some(next) = next_of_word(self.basis, other, excluded) {
                self.derive(target, Guide::Key(one, Some(next)), follow);
            }
        }
    }

    /// Wishes for texts that begin with the character, if there is one.
    pub(crate) fn begun(&mut self, target: Target, follow: bool) {
        if let Some(c) = self.character {
            self.derive(target, Guide::Character(Some(c)), follow);
        }
    }

    /// Wishes for texts in which an operator of the table has empty operands.
    pub(crate) fn bare_operators(&mut self) {
        for number in 0..self.operators() {
            let target = Target::Applied(number, Want::Nothing, Want::Nothing);
            self.derive(target, Guide::Character(None), false);
        }
    }

    /// Wishes for texts with an operator of the table and the character: in the operand after it, or in what follows.
    pub(crate) fn operators_with(&mut self, want: Want, follow: bool) {
        for number in 0..self.operators() {
            self.begun(Target::Applied(number, Want::Any, want), follow);
        }
    }

    /// Wishes for texts that begin with an operator of the table, or with the character.
    pub(crate) fn symbols(&mut self, target: Target, follow: bool) {
        for number in 0..self.operators() {
            self.derive(target, Guide::Symbol(number), follow);
        }
        self.begun(target, follow);
    }

    /// How many operators of the table are tried.
    fn operators(&self) -> usize {
        self.table.operators().len().min(MOST_TRIED)
    }
}
