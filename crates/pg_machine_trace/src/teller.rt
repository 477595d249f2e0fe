//! The reports on a run between its turns.

use crate::choices::number_of;
use crate::quoted::push_taken;
use crate::replies::{has_taken, loses, rule_used};
use crate::stretch::{between, failing};
use crate::trace_lines::{
    push_answer, push_characters, push_error, push_front, push_lost, push_stop,
};
use pg_grammar_form::{Around, NodeId, RuleId};
use pg_grammar_value::Grammar;
use pg_machine_turns::{FrameRef, Machine, Mode, Reply};
use pg_message_tape::MessageTape;
use pg_text::{Pos, Text};
use pg_text_excerpt::positions;
use std::alloc::{AllocError, Global};

/// A rule that was entered and hasn't been left, and the place where it was entered.
#[derive(Clone, Copy)]
struct OpenRule {
    rule: RuleId,
    place: usize,
}

/// The alternatives of a choice that aren't tried, since one before them answered (ours).
#[derive(Clone, Copy)]
struct Loss {
    /// The number of the alternative that answered.
    which: usize,
    /// The first alternative that isn't tried.
    next: NodeId,
    /// How many aren't tried.
    count: usize,
    /// The place where the choice was entered.
    start: usize,
}

/// The open rules of a run, how far it has read, and the lines about it.
#[derive(Drop)]
pub(crate) struct Teller<'a> {
    alloc: Global,
    grammar: &'a Grammar,
    text: &'a [char],
    /// The position of each place of the text, and of its end.
    positions: Vec<Pos>,
    /// The only rule to report on; all rules if there is none.
    only: Option<RuleId>,
    /// The rules that are open, the innermost last.
    open: Vec<OpenRule>,
    /// The place up to which the last entered node read the text.
    reached: usize,
    /// The number of the node that the last turn entered, if it entered one.
    entered: Option<usize>,
    /// Whether the error of the current answer has been reported: it is reported where it arises, and not again in each rule that it passes.
    told: bool,
    /// The lines that haven't been written yet.
    pub(crate) page: String,
    /// Whether every write has succeeded so far.
    pub(crate) writes: bool,
}

impl<'a> Teller<'a> {
    /// A teller that has reported nothing.
    fn new(
        alloc: Global,
        grammar: &'a Grammar,
        text: &'a Text,
        only: Option<RuleId>,
    ) -> Result<Teller<'a>, AllocError> {
        let text = text.characters();
        Ok(Teller {
            alloc,
            grammar,
            text,
            positions: positions(alloc, text)?,
            only,
            open: Vec::new(alloc),
            reached: 0,
            entered: None,
            told: false,
            page: String::new(alloc),
            writes: true,
        })
    }

    /// A teller that has reported that the start rule is entered.
    pub(crate) fn begun(
        alloc: Global,
        grammar: &'a Grammar,
        text: &'a Text,
        only: Option<RuleId>,
    ) -> Result<Teller<'a>, AllocError> {
        let mut teller = Teller::new(alloc, grammar, text, only)?;
        teller.enter(grammar.start_rule(), 0)?;
        Ok(teller)
    }

    /// Reports what the next turn does.
    pub(crate) fn tell(&mut self, machine: &Machine<'_>, mode: &Mode) -> Result<(), AllocError> {
        match mode {
            Mode::At(node, place) => self.tell_node(node.index(), *place),
            Mode::With(reply) => self.tell_reply(machine, *reply),
            Mode::Endless => Ok(()),
        }
    }

    /// Records how far the reported turn read.
    pub(crate) fn follow(&mut self, after: &Mode) {
        match after {
            Mode::At(_, place) => self.go_on(*place),
            Mode::With(Reply::Succeeded { end, .. }) => self.go_on(*end),
            Mode::With(Reply::Failed { consumed, error }) => self.fail_at(*consumed, error.place),
            Mode::With(Reply::EmptyRound) | Mode::Endless => {}
        }
    }

    /// The run continues from the place, without an error.
    fn go_on(&mut self, place: usize) {
        self.reached = place;
        self.told = false;
    }

    /// Records how far a leaf read that consumed and failed.
    fn fail_at(&mut self, consumed: bool, error: usize) {
        match self.entered {
            Some(node) if consumed => {
                self.reached = failing(
                    self.grammar.nodes().get(node),
                    self.text,
                    self.reached,
                    error,
                );
            }
            Some(_) | None => {}
        }
    }

    /// Reports that a node is entered, if it uses a rule.
    fn tell_node(&mut self, node: usize, place: usize) -> Result<(), AllocError> {
        self.entered = Some(node);
        match rule_used(self.grammar.nodes().get(node)) {
            Some(rule) => self.enter(rule, place),
            None => Ok(()),
        }
    }

    /// Reports that a rule is entered.
    fn enter(&mut self, rule: RuleId, place: usize) -> Result<(), AllocError> {
        if self.is_told_of(rule) {
            let depth = self.open.len();
            self.begin_line(place, depth, rule)?;
            self.page.push_str("\n")?;
        }
        self.open.push(OpenRule { rule, place })?;
        Ok(())
    }

    /// Reports what the topmost frame does with an answer. An empty round, which stops the run, leaves no rule.
    fn tell_reply(&mut self, machine: &Machine<'_>, reply: Reply) -> Result<(), AllocError> {
        self.entered = None;
        if matches!(reply, Reply::EmptyRound) {
            return Ok(());
        }
        match machine.frames.top() {
            Some(frame) => self.tell_frame(&machine.lists.messages, frame, reply),
            None => Ok(()),
        }
    }

    fn tell_frame(
        &mut self,
        messages: &MessageTape<'_>,
        frame: FrameRef<'_, '_>,
        reply: Reply,
    ) -> Result<(), AllocError> {
        match frame {
            FrameRef::Rule => self.leave(messages, reply),
            FrameRef::Choice(choice) => self.tell_choice(
                messages,
                choice.which as usize,
                choice.start,
                choice.rest,
                reply,
            ),
            FrameRef::Around(frame) => {
                self.give_back(frame.around, frame.start, reply);
                Ok(())
            }
            FrameRef::Parts(_)
            | FrameRef::Rounds(_)
            | FrameRef::First(_)
            | FrameRef::Separator(_)
            | FrameRef::Operand(_)
            | FrameRef::Expression(_) => Ok(()),
        }
    }

    /// Goes back to the start of a `try` that failed.
    fn give_back(&mut self, around: &Around, start: usize, reply: Reply) {
        match reply {
            Reply::Failed { .. } if around.is_try() => self.reached = start,
            Reply::Failed { .. } | Reply::Succeeded { .. } | Reply::EmptyRound => {}
        }
    }

    /// Reports that the innermost rule is left with an answer.
    fn leave(&mut self, messages: &MessageTape<'_>, reply: Reply) -> Result<(), AllocError> {
        match self.open.pop() {
            Some(open) if self.is_told_of(open.rule) => {
                self.tell_left(messages, open.rule, open.place, reply)
            }
            Some(_) | None => Ok(()),
        }
    }

    fn tell_left(
        &mut self,
        messages: &MessageTape<'_>,
        rule: RuleId,
        start: usize,
        reply: Reply,
    ) -> Result<(), AllocError> {
        let depth = self.open.len();
        self.begin_line_here(depth, rule)?;
        push_answer(&mut self.page, reply)?;
        if has_taken(reply) {
            self.push_taken_from(start)?;
        }
        self.tell_error(messages, reply)?;
        self.page.push_str("\n")
    }

    /// Reports which alternatives a choice loses, if it loses any.
    fn tell_choice(
        &mut self,
        messages: &MessageTape<'_>,
        which: usize,
        start: usize,
        rest: &[NodeId],
        reply: Reply,
    ) -> Result<(), AllocError> {
        match rest.first() {
            Some(next) if loses(reply) => {
                let loss = Loss {
                    which,
                    next: *next,
                    count: rest.len(),
                    start,
                };
                self.lose(messages, loss, reply)
            }
            Some(_) | None => Ok(()),
        }
    }

    /// Reports that alternatives of a choice aren't tried.
    fn lose(
        &mut self,
        messages: &MessageTape<'_>,
        loss: Loss,
        reply: Reply,
    ) -> Result<(), AllocError> {
        match self.innermost() {
            Some(rule) if self.is_told_of(rule) => {
                self.tell_lost(rule, loss)?;
                self.tell_error(messages, reply)?;
                self.page.push_str("\n")
            }
            Some(_) | None => Ok(()),
        }
    }

    /// The innermost open rule.
    fn innermost(&self) -> Option<RuleId> {
        match self.open.last() {
            Some(open) => Some(open.rule),
            None => None,
        }
    }

    /// Pushes that alternatives of a choice in a rule aren't tried.
    fn tell_lost(&mut self, rule: RuleId, loss: Loss) -> Result<(), AllocError> {
        let depth = self.open.len().saturating_sub(1);
        self.begin_line_here(depth, rule)?;
        let number = number_of(self.grammar, rule, loss.which, loss.next);
        push_lost(self.alloc, &mut self.page, number, loss.which, loss.count)?;
        self.push_taken_from(loss.start)?;
        self.page.push_str(" and failed")
    }

    /// Pushes the text that was read from the place on.
    fn push_taken_from(&mut self, start: usize) -> Result<(), AllocError> {
        let taken = between(self.text, start, self.reached);
        push_taken(self.alloc, &mut self.page, taken)
    }

    /// Reports the error of an answer, unless it has been reported.
    fn tell_error(&mut self, messages: &MessageTape<'_>, reply: Reply) -> Result<(), AllocError> {
        match reply {
            Reply::Failed { error, .. } if !self.told => {
                self.told = true;
                let position = self.position(error.place);
                let beyond = self.reached < error.place;
                push_error(
                    self.alloc,
                    &mut self.page,
                    messages,
                    error,
                    position,
                    beyond,
                )
            }
            Reply::Failed { .. } | Reply::Succeeded { .. } | Reply::EmptyRound => Ok(()),
        }
    }

    /// Reports how the run ended after this many turns: that the start rule is left, or why no rule is.
    pub(crate) fn finish(
        &mut self,
        machine: &Machine<'_>,
        mode: &Mode,
        steps: u64,
    ) -> Result<(), AllocError> {
        match mode {
            Mode::With(Reply::EmptyRound) => {
                self.stop("a round of a repetition was ok and took nothing")
            }
            Mode::Endless => self.stop("a chain would go on without an end"),
            Mode::With(reply) if machine.frames.is_empty() => {
                self.leave(&machine.lists.messages, *reply)
            }
            Mode::With(_) | Mode::At(_, _) => self.stop_after(steps),
        }
    }

    fn stop_after(&mut self, steps: u64) -> Result<(), AllocError> {
        let why = format!(in self.alloc; "{steps} steps were used up")?;
        self.stop(why.as_str())
    }

    /// Reports why the run stopped, and how many rules are open.
    fn stop(&mut self, why: &str) -> Result<(), AllocError> {
        let place = self.reached;
        let position = self.position(place);
        let open = self.open.len();
        push_front(self.alloc, &mut self.page, position, 0)?;
        push_stop(self.alloc, &mut self.page, why, open)
    }

    /// Begins a line about a rule, inside `depth` others, at the place that was reached.
    fn begin_line_here(&mut self, depth: usize, rule: RuleId) -> Result<(), AllocError> {
        let place = self.reached;
        self.begin_line(place, depth, rule)
    }

    /// Begins a line about a rule, inside `depth` others, at a place.
    fn begin_line(&mut self, place: usize, depth: usize, rule: RuleId) -> Result<(), AllocError> {
        let position = self.position(place);
        push_front(self.alloc, &mut self.page, position, depth)?;
        match self.grammar.rules().get(rule.index()) {
            Some(named) => push_characters(&mut self.page, named.name.as_slice()),
            None => Ok(()),
        }
    }

    /// Whether lines about the rule are written.
    fn is_told_of(&self, rule: RuleId) -> bool {
        match self.only {
            Some(only) => only == rule,
            None => true,
        }
    }

    /// The position of a place of the text.
    fn position(&self, place: usize) -> Pos {
        match self.positions.get(place) {
            Some(position) => *position,
            None => Pos { line: 1, column: 1 },
        }
    }
}
