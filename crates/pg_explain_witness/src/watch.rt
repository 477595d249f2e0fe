//! What a run does at a node: a watcher notes each visit of the node.

use crate::notes::{Next, Notes};
use crate::site::{Site, has_alternatives, site_of};
use pg_grammar_form::NodeId;
use pg_grammar_value::Grammar;
use pg_machine::Watcher;
use pg_machine_turns::{FrameRef, Machine, Mode, Reply};
use std::alloc::{AllocError, Global};

/// A watcher that notes what a run does at a node: which alternative of a choice answers, where a round consumes something, and where an expression goes on,
/// ends or fails after its terms. What a part loses by itself isn't noted.
#[derive(Drop)]
pub(crate) struct Watch<'g> {
    grammar: &'g Grammar,
    node: NodeId,
    site: Site,
    pub(crate) notes: Notes,
    /// Whether a term of the node was ok in this turn.
    is_handed: bool,
}

impl<'g> Watch<'g> {
    /// A watcher for the node.
    pub(crate) fn new(alloc: Global, grammar: &'g Grammar, node: NodeId) -> Watch<'g> {
        Watch {
            grammar,
            node,
            site: site_of(grammar, node),
            notes: Notes::new(alloc),
            is_handed: false,
        }
    }

    /// Notes that a node is entered at the place.
    fn enter(&mut self, node: NodeId, place: usize) -> Result<(), AllocError> {
        let is_noted = node == self.node;
        if self.site.is_choice() {
            if has_alternatives(self.grammar, node) {
                self.notes.begin(is_noted, place)?;
            }
            Ok(())
        } else if is_noted && self.site.has_steps() {
            self.notes.begin(true, place)
        } else if self.site.repeats(node) || self.site.separates(node) {
            self.notes.mark();
            Ok(())
        } else if self.site.has_term(node) {
            self.notes.begin_term(place)
        } else {
            Ok(())
        }
    }

    /// Notes that the topmost frame gets an answer.
    fn hand(&mut self, frame: FrameRef<'_, '_>, reply: Reply) -> Result<(), AllocError> {
        match frame {
            FrameRef::Choice(choice) if self.site.is_choice() => {
                self.hand_choice(choice.which as usize, choice.rest.is_empty(), reply)
            }
            FrameRef::Rounds(rounds) if self.site.repeats(rounds.part) => {
                self.hand_round(rounds.start, reply)
            }
            FrameRef::First(chain) if self.site.separates(chain.separator) => {
                self.end_where_failed(reply);
                Ok(())
            }
            FrameRef::Separator(links) if self.site.separates(links.chain.separator) => {
                self.hand_round(links.start, reply)
            }
            FrameRef::Operand(operand) if self.site.separates(operand.links.chain.separator) => {
                self.hand_round(operand.links.start, reply)
            }
            FrameRef::Expression(expression) if self.site.has_term(expression.setting.term) => {
                self.hand_term(reply);
                Ok(())
            }
            FrameRef::Parts(_)
            | FrameRef::Choice(_)
            | FrameRef::Rounds(_)
            | FrameRef::First(_)
            | FrameRef::Separator(_)
            | FrameRef::Operand(_)
            | FrameRef::Rule
            | FrameRef::Around(_)
            | FrameRef::Expression(_) => Ok(()),
        }
    }

    /// Notes that the alternative with this number of the innermost choice answers.
    fn hand_choice(&mut self, which: usize, is_last: bool, reply: Reply) -> Result<(), AllocError> {
        if stands(reply) {
            self.notes.go_on(Next::Alternative(which))?;
            self.notes.end();
        } else if is_last {
            self.notes.end();
        }
        Ok(())
    }

    /// Notes the answer of a round that began at the place, or of a link's separator or operand.
    fn hand_round(&mut self, start: usize, reply: Reply) -> Result<(), AllocError> {
        if has_consumed(reply) {
            self.notes.go_on_from(start, Next::Round)?;
        }
        self.end_where_failed(reply);
        Ok(())
    }

    /// Ends the visit if the answer is an error.
    fn end_where_failed(&mut self, reply: Reply) {
        if has_failed(reply) {
            self.notes.end();
        }
    }

    /// Notes the answer of a term of the innermost expression.
    fn hand_term(&mut self, reply: Reply) {
        match reply {
            Reply::Succeeded { end, .. } => {
                self.notes.come_to(end);
                self.is_handed = true;
            }
            Reply::Failed { .. } => self.notes.end(),
            Reply::EmptyRound => {}
        }
    }

    /// Notes how the expression ends: it has no further term.
    fn end_expression(&mut self, next: Next) -> Result<(), AllocError> {
        self.notes.go_on(next)?;
        self.notes.end();
        Ok(())
    }
}

impl Watcher for Watch<'_> {
    fn see(&mut self, machine: &Machine<'_>, mode: &Mode) -> Result<(), AllocError> {
        match mode {
            Mode::At(node, place) => self.enter(*node, *place),
            Mode::With(reply) => match machine.frames.top() {
                Some(frame) => self.hand(frame, *reply),
                None => Ok(()),
            },
            Mode::Endless => Ok(()),
        }
    }

    fn follow(&mut self, after: &Mode) -> Result<(), AllocError> {
        self.notes.turn();
        if !self.is_handed {
            return Ok(());
        }
        self.is_handed = false;
        match after {
            Mode::With(Reply::Succeeded { end, .. }) => self.end_expression(Next::End(*end)),
            Mode::With(Reply::Failed { .. }) => self.end_expression(Next::Failure),
            Mode::With(Reply::EmptyRound) | Mode::At(_, _) | Mode::Endless => Ok(()),
        }
    }

    fn end(&mut self, _machine: &Machine<'_>, _mode: &Mode, _steps: u64) -> Result<(), AllocError> {
        Ok(())
    }
}

/// Whether a choice tries no more alternatives after this answer.
fn stands(reply: Reply) -> bool {
    match reply {
        Reply::Succeeded { .. } => true,
        Reply::Failed { consumed, .. } => consumed,
        Reply::EmptyRound => false,
    }
}

fn has_failed(reply: Reply) -> bool {
    match reply {
        Reply::Failed { .. } => true,
        Reply::Succeeded { .. } | Reply::EmptyRound => false,
    }
}

/// Whether the answer has consumed something.
pub(crate) fn has_consumed(reply: Reply) -> bool {
    match reply {
        Reply::Succeeded { consumed, .. } | Reply::Failed { consumed, .. } => consumed,
        Reply::EmptyRound => false,
    }
}
