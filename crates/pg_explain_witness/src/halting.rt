//! Where a run gets stuck: a rule is entered again at one place, or a round consumes nothing.

use crate::asks::Shows;
use crate::site::{Site, site_of};
use pg_grammar_form::{Form, NodeId, RuleId};
use pg_grammar_value::Grammar;
use pg_machine::Watcher;
use pg_machine_turns::{FrameRef, Machine, Mode, Reply};
use std::alloc::{AllocError, Global};

/// Where a run gets stuck.
#[derive(Clone, Copy)]
pub(crate) struct Halt {
    /// The place.
    pub(crate) place: usize,
    /// After how many turns the rule's body is entered, or the part that begins the round.
    pub(crate) entered: u64,
    /// How many turns later the body is entered again.
    pub(crate) again: u64,
}

/// A rule that was entered and not left, the place where it was entered, and after how many turns its body was.
#[derive(Clone, Copy)]
struct OpenRule {
    rule: RuleId,
    place: usize,
    turns: u64,
}

/// The place where the part that begins a round was entered, and after how many turns.
#[derive(Clone, Copy)]
struct Entry {
    place: usize,
    turns: u64,
}

/// A watcher that notes where the node gets stuck.
#[derive(Drop)]
pub(crate) struct Halting<'g> {
    grammar: &'g Grammar,
    node: NodeId,
    site: Site,
    /// Whether to look for the rule with this body to be entered again. Otherwise a round of the node has to consume nothing.
    is_of_rules: bool,
    /// The open rules, the innermost last.
    open: Vec<OpenRule>,
    /// Where rounds of the node began.
    begun: Vec<Entry>,
    /// How many turns have been made.
    turns: u64,
    /// Where the node first got stuck, if it did.
    pub(crate) halt: Option<Halt>,
}

impl<'g> Halting<'g> {
    /// A watcher for what would show the finding at the node.
    pub(crate) fn new(
        alloc: Global,
        grammar: &'g Grammar,
        node: NodeId,
        shows: Shows,
    ) -> Result<Halting<'g>, AllocError> {
        let mut halting = Halting {
            grammar,
            node,
            site: site_of(grammar, node),
            is_of_rules: matches!(shows, Shows::Reentry),
            open: Vec::new(alloc),
            begun: Vec::new(alloc),
            turns: 0,
            halt: None,
        };
        halting.open.push(OpenRule {
            rule: grammar.start_rule(),
            place: 0,
            turns: 0,
        })?;
        Ok(halting)
    }

    /// Notes that a node is entered at the place.
    fn enter(&mut self, node: NodeId, place: usize) -> Result<(), AllocError> {
        if self.is_of_rules {
            self.enter_rule(node, place)
        } else if self.site.repeats(node) || self.site.separates(node) {
            let turns = self.turns;
            self.begun.push(Entry { place, turns })?;
            Ok(())
        } else {
            Ok(())
        }
    }

    /// Notes that a node is entered at the place. If it uses a rule, that rule is open from then on.
    fn enter_rule(&mut self, node: NodeId, place: usize) -> Result<(), AllocError> {
        match self.grammar.nodes().get(node.index()) {
            Some(Form::Rule(rule)) => self.open_rule(*rule, place),
            Some(
                Form::Leaf(_)
                | Form::Seq(_)
                | Form::Choice(_)
                | Form::Many(_)
                | Form::Chain(_, _, _, _)
                | Form::Expression(_, _)
                | Form::Around(_, _),
            )
            | None => Ok(()),
        }
    }

    /// Opens the rule at the place; the next turn enters its body.
    fn open_rule(&mut self, rule: RuleId, place: usize) -> Result<(), AllocError> {
        let turns = self.turns.saturating_add(1);
        if self.is_body_of(rule) {
            if let Some(entered) = self.opened(rule, place) {
                self.halt = Some(Halt {
                    place,
                    entered,
                    again: turns.saturating_sub(entered),
                });
                return Ok(());
            }
        }
        self.open.push(OpenRule { rule, place, turns })?;
        Ok(())
    }

    /// Whether the node is the body of the rule.
    fn is_body_of(&self, rule: RuleId) -> bool {
        match self.grammar.rules().get(rule.index()) {
            Some(named) => named.body == self.node,
            None => false,
        }
    }

    /// After how many turns the body of the rule was entered, if the rule has been open since then at the same place.
    fn opened(&self, rule: RuleId, place: usize) -> Option<u64> {
        for number in (0..self.open.len()).rev() {
            if let Some(open) = self.open.get(number) {
                if open.place != place {
                    return None;
                }
                if open.rule == rule {
                    return Some(open.turns);
                }
            }
        }
        None
    }

    /// Notes that the topmost frame gets an answer. A rule's frame closes the rule.
    fn leave(&mut self, frame: FrameRef<'_, '_>) {
        match frame {
            FrameRef::Rule => {
                let _rule = self.open.pop();
            }
            FrameRef::Parts(_)
            | FrameRef::Choice(_)
            | FrameRef::Rounds(_)
            | FrameRef::First(_)
            | FrameRef::Separator(_)
            | FrameRef::Operand(_)
            | FrameRef::Around(_)
            | FrameRef::Expression(_) => {}
        }
    }

    /// Notes that the topmost frame gets an ok answer that consumed nothing. If the frame is that of a round, the round consumed nothing.
    fn idle(&mut self, frame: FrameRef<'_, '_>) {
        match frame {
            FrameRef::Rounds(rounds) if self.site.repeats(rounds.part) => {
                self.stay_at(rounds.start);
            }
            FrameRef::Operand(operand) if self.site.separates(operand.links.chain.separator) => {
                if !operand.before.consumed {
                    self.stay_at(operand.links.start);
                }
            }
            FrameRef::Parts(_)
            | FrameRef::Choice(_)
            | FrameRef::Rounds(_)
            | FrameRef::First(_)
            | FrameRef::Separator(_)
            | FrameRef::Operand(_)
            | FrameRef::Rule
            | FrameRef::Around(_)
            | FrameRef::Expression(_) => {}
        }
    }

    /// Notes that a round that began at the place consumed nothing.
    fn stay_at(&mut self, place: usize) {
        for number in (0..self.begun.len()).rev() {
            if let Some(entry) = self.begun.get(number) {
                if entry.place == place {
                    self.halt = Some(Halt {
                        place,
                        entered: entry.turns,
                        again: 0,
                    });
                    return;
                }
            }
        }
    }

    /// Notes that the topmost frame gets an answer.
    fn hand(&mut self, frame: FrameRef<'_, '_>, reply: Reply) {
        if self.is_of_rules {
            self.leave(frame);
        } else if is_idle(reply) {
            self.idle(frame);
        }
    }
}

impl Watcher for Halting<'_> {
    fn see(&mut self, machine: &Machine<'_>, mode: &Mode) -> Result<(), AllocError> {
        if self.halt.is_some() {
            return Ok(());
        }
        match mode {
            Mode::At(node, place) => self.enter(*node, *place),
            Mode::With(reply) => {
                if let Some(frame) = machine.frames.top() {
                    self.hand(frame, *reply);
                }
                Ok(())
            }
            Mode::Endless => Ok(()),
        }
    }

    fn follow(&mut self, _after: &Mode) -> Result<(), AllocError> {
        self.turns = self.turns.saturating_add(1);
        Ok(())
    }

    fn end(&mut self, _machine: &Machine<'_>, _mode: &Mode, _steps: u64) -> Result<(), AllocError> {
        Ok(())
    }
}

/// Whether an answer is ok without having consumed.
fn is_idle(reply: Reply) -> bool {
    match reply {
        Reply::Succeeded { consumed, .. } => !consumed,
        Reply::Failed { .. } | Reply::EmptyRound => false,
    }
}
