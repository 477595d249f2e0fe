//! The steps of a draft along its way, and what it does at the way's end.

use crate::drafting::Draft;
use crate::forms::{alternatives, around, form_at};
use crate::target::{Pick, Target, Task, Want};
use pg_grammar_form::{Form, Node, NodeId, Role};

impl<'g> Draft<'g> {
    /// Takes the step of the way with this number.
    pub(crate) fn step(&mut self, number: usize) {
        let Some(step) = self.plan.way.get(number).copied() else {
            return;
        };
        let node = NodeId::new(step.node);
        let Some(form) = form_at(self.field.basis.grammar, node) else {
            return;
        };
        let next = number.saturating_add(1);
        match self.plan.way.get(next).copied() {
            Some(below) => {
                let after = wanted_behind(step.waits, below.waits);
                self.go_down(form, NodeId::new(below.node), after, next);
            }
            None => self.arrive(form, node),
        }
    }

    /// Makes tasks of what stands before the next node of the way, that node, and what stands after it.
    fn go_down(&mut self, form: &Node, below: NodeId, after: Want, next: usize) {
        match form {
            Form::Seq(parts) => {
                let (before, behind) = around(parts.as_slice(), below);
                match after {
                    Want::Guide => self.guided_behind(behind),
                    Want::Any | Want::Nothing | Want::Some | Want::Space => {
                        self.want_each(behind, after)
                    }
                }
                self.to_do(Task::Step(next));
                self.want_each(before, Want::Any);
            }
            Form::Choice(parts) => {
                let (before, _) = around(parts.as_slice(), below);
                self.pick(Pick::Alternative(before.len().saturating_add(1)));
                self.to_do(Task::Step(next));
            }
            Form::Many(part) => self.round_down(*part, after, next),
            Form::Chain(_, _, operand, separator) => {
                self.link_down(*operand, *separator, below, after, next)
            }
            Form::Expression(_, _) => {
                self.pick(Pick::Operator(None));
                self.to_do(Task::Step(next));
            }
            Form::Rule(_) | Form::Around(_, _) | Form::Leaf(_) => self.to_do(Task::Step(next)),
        }
    }

    /// Makes these parts begin with the guide.
    fn guided_behind(&mut self, parts: &[NodeId]) {
        let (taken, guided) = (self.taken, self.guided);
        self.begin_guide();
        self.sequence(parts, Want::Guide);
        self.taken = taken;
        self.guided = guided;
        self.to_do(Task::Start);
    }

    /// The round that the way goes through, and one after it where the guide has to follow.
    fn round_down(&mut self, part: NodeId, after: Want, next: usize) {
        if matches!(after, Want::Guide) {
            self.pick(Pick::Rounds(2));
            self.want_first(part, Want::Guide);
        } else {
            self.pick(Pick::Rounds(1));
        }
        self.to_do(Task::Step(next));
    }

    /// The operand or the separator that the way goes through, and what stands beside it.
    fn link_down(
        &mut self,
        operand: NodeId,
        separator: NodeId,
        below: NodeId,
        after: Want,
        next: usize,
    ) {
        if below != operand {
            self.pick(Pick::Rounds(1));
            self.want_first(operand, after);
            self.to_do(Task::Step(next));
            self.want(operand, Want::Any);
        } else if matches!(after, Want::Guide) {
            self.pick(Pick::Rounds(1));
            self.guided_behind(&[separator, operand]);
            self.to_do(Task::Step(next));
        } else {
            self.pick(Pick::Rounds(0));
            self.to_do(Task::Step(next));
        }
    }

    /// Does what the target says at the node.
    fn arrive(&mut self, form: &Node, node: NodeId) {
        match self.plan.target {
            Target::Stop => self.give_up(),
            Target::Whole(want) => self.want_first(node, want),
            Target::Alternative(number, want) => {
                if let Some(part) = alternatives(self.field.basis.grammar, node).get(number) {
                    self.pick(Pick::Alternative(number.saturating_add(1)));
                    self.want_first(*part, want);
                }
            }
            Target::Rounds(count) => self.so_many(form, count),
            Target::Applied(operator, one, other) => self.applied(form, operator, one, other),
        }
    }

    /// A repetition with `count` rounds.
    fn so_many(&mut self, form: &Node, count: usize) {
        match form {
            Form::Many(part) => self.so_many_rounds(*part, count),
            Form::Chain(_, _, operand, separator) => {
                self.pick(Pick::Rounds(count));
                for _ in 0..count {
                    self.want_each(&[*separator, *operand], Want::Any);
                }
                self.want(*operand, Want::Any);
            }
            Form::Leaf(_)
            | Form::Seq(_)
            | Form::Choice(_)
            | Form::Rule(_)
            | Form::Expression(_, _)
            | Form::Around(_, _) => {}
        }
    }

    /// An operator applied to its operands.
    fn applied(&mut self, form: &Node, operator: usize, one: Want, other: Want) {
        let Some(term) = form.term().copied() else {
            return;
        };
        let table = self.field.table;
        let Some(declared) = table.operators().get(operator) else {
            return;
        };
        self.pick(Pick::Operator(Some(operator)));
        match declared.role() {
            Role::InfixLeft | Role::InfixRight | Role::InfixNone => {
                self.want_first(term, other);
                self.to_do(Task::Symbol(operator));
                self.want_first(term, one);
            }
            Role::Prefix => {
                self.want_first(term, other);
                self.to_do(Task::Symbol(operator));
            }
            Role::Postfix => {
                self.to_do(Task::Symbol(operator));
                self.want_first(term, one);
            }
        }
    }
}

/// What text the parts after a step should have: an empty one while the wait goes on, and one that follows the guide where the wait ends.
fn wanted_behind(waits: bool, waits_below: bool) -> Want {
    if waits != waits_below {
        Want::Guide
    } else if waits {
        Want::Nothing
    } else {
        Want::Any
    }
}
