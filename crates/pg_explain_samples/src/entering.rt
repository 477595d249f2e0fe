//! How a node of a draft gets its text.

use crate::drafting::Draft;
use crate::forms::{body_of, form_at};
use crate::leading::{cheapest, leader, sequence_cost};
use crate::leaves::start_at;
use crate::target::{Pick, Task, Want};
use pg_grammar_form::{Form, Node, NodeId};
use pg_start::StartKind;

impl<'g> Draft<'g> {
    /// Gives the node a text of the kind wanted. Where any text will do, one that follows the guide is preferred.
    pub(crate) fn enter(&mut self, node: NodeId, want: Want) {
        let want = if matches!(want, Want::Any) && self.can(node, Want::Guide) {
            Want::Guide
        } else {
            want
        };
        if !self.can(node, want) {
            self.give_up();
            return;
        }
        if let Some(form) = form_at(self.field.basis.grammar, node) {
            self.enter_form(node, form, want);
        }
    }

    fn enter_form(&mut self, node: NodeId, form: &'g Node, want: Want) {
        match form {
            Form::Leaf(leaf) => self.leaf(node, leaf, want),
            Form::Seq(parts) => self.sequence(parts.as_slice(), want),
            Form::Choice(parts) => self.choice(parts.as_slice(), want),
            Form::Many(part) => self.rounds(*part, want),
            Form::Chain(_, _, operand, separator) => self.chain(*operand, *separator, want),
            Form::Rule(rule) => {
                if let Some(body) = body_of(self.field.basis.grammar, *rule) {
                    self.want(body, want);
                }
            }
            Form::Expression(_, term) => {
                self.pick(Pick::Operator(None));
                self.want(*term, want);
            }
            Form::Around(_, part) => {
                self.to_do(Task::Exclude(node));
                self.want(*part, want);
            }
        }
    }

    /// Gives the parts of a sequence texts that together are of the kind wanted.
    pub(crate) fn sequence(&mut self, parts: &[NodeId], want: Want) {
        match self.leading(want) {
            Some(costs) => match leader(&self.field.basis.plain, costs, parts) {
                Some(number) => self.led(parts, number, want),
                None => self.give_up(),
            },
            None => self.want_each(parts, want),
        }
    }

    /// The part with index `number` begins the text, and those before it are empty.
    fn led(&mut self, parts: &[NodeId], number: usize, want: Want) {
        let (before, rest) = parts.split_at(number.min(parts.len()));
        if let [part, after @ ..] = rest {
            self.want_each(after, Want::Any);
            self.want(*part, want);
            self.want_each(before, Want::Nothing);
        }
    }

    /// Picks an alternative.
    fn choice(&mut self, parts: &[NodeId], want: Want) {
        match self.picked(parts, want) {
            Some(number) => {
                if let Some(part) = parts.get(number) {
                    self.pick(Pick::Alternative(number.saturating_add(1)));
                    self.want(*part, want);
                }
            }
            None => self.give_up(),
        }
    }

    /// The index of the alternative to pick: the cheapest, or any where the draft is varied.
    fn picked(&mut self, parts: &[NodeId], want: Want) -> Option<usize> {
        let costs = self.costs(want)?;
        if self.varies() {
            let number = self.random.below(parts.len());
            if costs.has(*parts.get(number)?) {
                return Some(number);
            }
        }
        cheapest(costs, parts)
    }

    /// Picks the number of rounds of a repetition.
    fn rounds(&mut self, part: NodeId, want: Want) {
        match want {
            Want::Nothing => self.pick(Pick::Rounds(0)),
            Want::Any => self.free_rounds(part),
            Want::Some | Want::Space => self.round(part, want),
            Want::Guide => {
                let place = self.picks.len();
                self.to_do(Task::More(part, place));
                self.round(part, want);
            }
        }
    }

    /// One round.
    fn round(&mut self, part: NodeId, want: Want) {
        self.pick(Pick::Rounds(1));
        self.want(part, want);
    }

    /// No round as a rule; one of a space where that is wished for and possible; one or two where the draft is varied.
    fn free_rounds(&mut self, part: NodeId) {
        if self.plan.spaced && self.excluded.is_some() && self.can(part, Want::Space) {
            self.round(part, Want::Space);
        } else if self.varies() && self.field.basis.some.has(part) {
            let count = self.random.below(2).saturating_add(1);
            self.so_many_rounds(part, count);
        } else {
            self.pick(Pick::Rounds(0));
        }
    }

    /// Makes `count` rounds, each with a nonempty text.
    pub(crate) fn so_many_rounds(&mut self, part: NodeId, count: usize) {
        self.pick(Pick::Rounds(count));
        for _ in 0..count {
            self.want(part, Want::Some);
        }
    }

    /// One more round, if it can follow the guide. The count in the choice at index `pick` grows by one.
    pub(crate) fn more(&mut self, part: NodeId, pick: usize) {
        if self.can(part, Want::Guide) {
            if let Some(Pick::Rounds(count)) = self.picks.get(pick).copied() {
                if pick < self.picks.len() {
                    self.picks[pick] = Pick::Rounds(count.saturating_add(1));
                }
            }
            self.to_do(Task::More(part, pick));
            self.want(part, Want::Guide);
        }
    }

    /// A chain: one operand, or two where the separator has to begin or the draft is varied.
    fn chain(&mut self, operand: NodeId, separator: NodeId, want: Want) {
        let parts = [operand, separator, operand];
        let basis = self.field.basis;
        let is_long = match self.leading(want) {
            Some(costs) => sequence_cost(&basis.plain, costs, &parts) < costs.at(operand),
            None => matches!(want, Want::Any) && basis.plain.any.has(separator) && self.varies(),
        };
        if is_long {
            self.pick(Pick::Rounds(1));
            self.sequence(&parts, want);
        } else {
            self.pick(Pick::Rounds(0));
            self.want(operand, want);
        }
    }

    /// After a try that gives a key: sets the characters that may not follow it.
    pub(crate) fn exclude(&mut self, node: NodeId) {
        match start_at(self.field.basis.sets, node) {
            Some(StartKind::Key(_, excluded)) => {
                if !excluded.ranges().is_empty() {
                    self.excluded = Some(excluded);
                }
            }
            Some(StartKind::Class(_) | StartKind::Word(_, _, _) | StartKind::End) | None => {}
        }
    }
}
