//! One turn: it enters a node, or passes an answer to the topmost frame.

ghost use Rattle.std.specs.Prelude.{◌≡◌, ◌≤◌, ◌-◌, ◌^◌, ◌⊎◌, true, length, take, IfOk};
ghost use Rattle.pg_pred.specs.Offer.{offer_of};
ghost use Rattle.pg_grammar_value.specs.Fits.{Fits};
ghost use Rattle.pg_machine_lists.specs.ViewLevels.{given_of};
ghost use Rattle.pg_machine_turns.specs.Tape.{tape_turn, tape_hand, tape_is_last, tape_with};
ghost use Rattle.pg_machine_turns.specs.Ready.{AreReady, IsReady, IsTapeReady};
ghost use Rattle.pg_machine_turns.specs.TapeRuns.{IsAfter, IsTapeReadyFor};
ghost use Rattle.pg_machine_turns.specs.View.{frame_of, on_lists, tape_of};

use crate::frame::{Mode, Reply};
use crate::frame_lists::FrameKind;
use crate::machine::Machine;
use pg_machine_lists::Context;
use std::alloc::AllocError;

/// The result of some turns, and how many they were.
#[derive(Clone, Copy)]
pub struct Progress {
    pub mode: Mode,
    pub steps: u64,
}

impl<'a> Machine<'a> {
    /// Makes turns until none is left, or as many as given. Every turn's condition must hold, for that many turns. The only error is that
    /// memory ran out; the state of the machine is then unspecified. Everything that runs the machine calls this, so the turn is inlined once.
    #[inline(never)]
    pub fn turns(
        &mut self,
        context: Context<'_, 'a>,
        begun: Mode,
        most: u64,
    ) -> Result<Progress, AllocError>
        requires fits { Fits (offer_of context.registry.now) context.given.grammar.now }
        requires ready { IsTapeReadyFor (offer_of context.registry.now) context.given.grammar.now most (tape_of begun self.now) }
        ensures after { IfOk result (λ came. IsAfter (given_of context.entry.given) (tape_of begun self.old) came.steps (tape_of came.mode self.new)) }
        ensures within { IfOk result (λ came. came.steps ≤ most) }
        ensures last { IfOk result (λ came. (most ≤ came.steps) ⊎ (tape_is_last (tape_of came.mode self.new) ≡ true)) }
    {
        let mut mode = begun;
        let mut steps: u64 = 0;
        while steps < most && !self.is_over(&mode) {
            mode = self.step(context, mode)?;
            steps += 1;
        }
        Ok(Progress { mode, steps })
    }

    /// One turn: enters the node at hand, or passes the answer at hand to the topmost frame. The registry must fit, and the frames
    /// must be ready: their counts can grow, the builders that they name are offered, and expressions have
    /// the grammar's operators item. The only error is that memory ran out; the
    /// state of the machine is then unspecified.
    #[inline(always)]
    fn step(&mut self, context: Context<'_, 'a>, mode: Mode) -> Result<Mode, AllocError>
        requires fits { Fits (offer_of context.registry.now) context.given.grammar.now }
        requires ready { IsTapeReady (offer_of context.registry.now) context.given.grammar.now (2 ^ 64 - 1) (tape_of mode self.now) }
        ensures { IfOk result (λ next. tape_of next self.new ≡
            tape_turn (given_of context.entry.given) (tape_of mode self.old)) }
    {
        match mode {
            Mode::At(node, place) => self.enter(context, node, place),
            Mode::With(reply) => self.hand_on(context, reply),
            Mode::Endless => Ok(Mode::Endless),
        }
    }

    /// Passes an answer to the topmost frame, if there is one. A repetition's frame stays in place while its rounds consume.
    #[inline(always)]
    fn hand_on(&mut self, context: Context<'_, 'a>, reply: Reply) -> Result<Mode, AllocError>
        requires { AreReady (offer_of context.registry.now) context.given.grammar.now (2 ^ 64 - 1) self.now.frames }
        ensures { IfOk result (λ mode. tape_of mode self.new ≡ tape_turn (given_of context.entry.given) (on_lists (tape_with reply) self.old)) }
    {
        if let Some(mode) = self.run_on(reply)? {
            return Ok(mode);
        }
        self.hand_off(context, reply)
    }

    /// Pops the topmost frame, if there is one, and passes an answer to it. It loads no more of a frame than its kind has.
    #[inline(always)]
    fn hand_off(&mut self, context: Context<'_, 'a>, reply: Reply) -> Result<Mode, AllocError>
        requires { AreReady (offer_of context.registry.now) context.given.grammar.now (2 ^ 64 - 1) self.now.frames }
        ensures { IfOk result (λ mode. tape_of mode self.new ≡ tape_turn (given_of context.entry.given) (on_lists (tape_with reply) self.old)) }
    {
        let (alloc, registry) = (context.alloc, context.registry);
        let frames = &mut self.frames;
        let Some(kind) = frames.kinds.pop() else {
            return Ok(Mode::With(reply));
        };
        match kind {
            FrameKind::Parts => match frames.lists.take_parts() {
                Some(parts) => self.hand_to_parts(parts, reply),
                None => Ok(Mode::With(reply)),
            },
            FrameKind::Choice => match frames.lists.take_choice() {
                Some(choice) => self.hand_to_choice(alloc, context.given.reading, choice, reply),
                None => Ok(Mode::With(reply)),
            },
            FrameKind::Rounds => match frames.lists.take_rounds() {
                Some(rounds) => self.hand_to_rounds(rounds, reply),
                None => Ok(Mode::With(reply)),
            },
            FrameKind::First => match frames.lists.take_first() {
                Some(chain) => self.hand_to_first(alloc, chain, reply),
                None => Ok(Mode::With(reply)),
            },
            FrameKind::Separator => match frames.lists.take_separator() {
                Some(links) => self.hand_to_separator(links, reply),
                None => Ok(Mode::With(reply)),
            },
            FrameKind::Operand => match frames.lists.take_operand() {
                Some(operand) => self.hand_to_operand(operand, reply),
                None => Ok(Mode::With(reply)),
            },
            FrameKind::Rule => Ok(Mode::With(reply)),
            FrameKind::Around => match frames.lists.take_around() {
                Some(around) => self.hand_to_around(registry, context.given.text, around, reply),
                None => Ok(Mode::With(reply)),
            },
            FrameKind::Expression => match frames.lists.take_expression() {
                Some(expression) => { self.hand_to_expression(context, expression, reply) }
                None => Ok(Mode::With(reply)),
            },
        }
    }

    /// Whether no turn is left: an answer is at hand and no frame waits for it, or the run has no end.
    #[inline(always)]
    pub fn is_over(&self, mode: &Mode) -> bool
        ensures { result ≡ tape_is_last (tape_of mode.now self.now) }
    {
        match mode {
            Mode::At(_, _) => false,
            Mode::With(_) => self.frames.is_empty(),
            Mode::Endless => true,
        }
    }
}
