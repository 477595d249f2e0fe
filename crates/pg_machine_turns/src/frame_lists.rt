//! The frames of a run, each kind on a list of its own, the newest last.

ghost use Rattle.std.specs.Prelude.{◌≡◌, ◌∷◌, ◌++◌, ◌<◌, ◌-◌, ◌^◌, [], suc, true, IfNone, IfOk, IfSome, OnOk};
ghost use Rattle.pg_machine_turns.specs.Tape.{on_rounds, on_rule};
ghost use Rattle.pg_machine_turns.specs.declared.frame.RoundsFrame.{RoundsFrame};
ghost use Rattle.pg_machine_turns.specs.declared.frame.Frame.TheVariants as frame;
ghost use Rattle.pg_machine_turns.specs.declared.frame_lists.FrameKind.TheVariants as kind;
ghost use Rattle.pg_machine_turns.specs.ViewFrames.{by_kind, frame_of, lying_of, newest, of_kind, without_newest};

use crate::frame::{
    AroundFrame, ChainFrame, ChoiceFrame, Frame, FrameRef, LinksFrame, Marks, OperandFrame,
    PartsFrame, RoundsFrame,
};
use pg_machine_lists::ExpressionFrame;
use std::alloc::{AllocError, Global};

/// The kind of a frame.
#[derive(Clone, Copy)]
pub enum FrameKind {
    Parts,
    Choice,
    Rounds,
    First,
    Separator,
    Operand,
    Rule,
    Around,
    Expression,
}

/// The lists; a rule's frame has nothing to keep.
#[derive(Drop)]
pub struct FrameLists<'a> {
    pub parts: Vec<PartsFrame<'a>>,
    pub choices: Vec<ChoiceFrame<'a>>,
    pub rounds: Vec<RoundsFrame>,
    pub firsts: Vec<ChainFrame<'a>>,
    pub separators: Vec<Box<LinksFrame<'a>>>,
    pub operands: Vec<OperandFrame<'a>>,
    pub arounds: Vec<AroundFrame<'a>>,
    pub expressions: Vec<Box<ExpressionFrame<'a>>>,
}

impl<'a> FrameLists<'a> {
    /// Lists without frames. They allocate no memory.
    pub(crate) fn new(alloc: Global) -> FrameLists<'a> {
        FrameLists {
            parts: Vec::new(alloc),
            choices: Vec::new(alloc),
            rounds: Vec::new(alloc),
            firsts: Vec::new(alloc),
            separators: Vec::new(alloc),
            operands: Vec::new(alloc),
            arounds: Vec::new(alloc),
            expressions: Vec::new(alloc),
        }
    }

    /// Appends a frame to the list of its kind, and gives the kind.
    #[inline(always)]
    #[tactic(auto, using(crate::proofs::KindLists::newest_last))]
    pub(crate) fn put(&mut self, frame: Frame<'a>) -> Result<FrameKind, AllocError>
        ensures newest { IfOk result (λ kind. newest (of_kind kind (by_kind self.new)) ≡ frame_of frame.entry) }
        ensures others { IfOk result (λ kind. without_newest kind (by_kind self.new) ≡ by_kind self.old) }
    {
        match frame {
            Frame::Parts(parts) => {
                put_last(&mut self.parts, parts)?;
                Ok(FrameKind::Parts)
            }
            Frame::Choice(choice) => {
                put_last(&mut self.choices, choice)?;
                Ok(FrameKind::Choice)
            }
            Frame::Rounds(rounds) => {
                put_last(&mut self.rounds, rounds)?;
                Ok(FrameKind::Rounds)
            }
            Frame::First(chain) => {
                put_last(&mut self.firsts, chain)?;
                Ok(FrameKind::First)
            }
            Frame::Separator(links) => {
                put_last(&mut self.separators, links)?;
                Ok(FrameKind::Separator)
            }
            Frame::Operand(operand) => {
                put_last(&mut self.operands, operand)?;
                Ok(FrameKind::Operand)
            }
            Frame::Rule => Ok(FrameKind::Rule),
            Frame::Around(around) => {
                put_last(&mut self.arounds, around)?;
                Ok(FrameKind::Around)
            }
            Frame::Expression(expression) => {
                put_last(&mut self.expressions, expression)?;
                Ok(FrameKind::Expression)
            }
        }
    }

    /// The newest frame of a kind; a rule's if there is none.
    #[tactic(auto, using(crate::proofs::KindLists::last_newest, crate::proofs::KindLists::none_newest))]
    pub(crate) fn newest(&self, kind: FrameKind) -> FrameRef<'_, 'a>
        ensures { lying_of result ≡ newest (of_kind kind (by_kind self.now)) }
    {
        match kind {
            FrameKind::Parts => match self.parts.last() {
                Some(parts) => FrameRef::Parts(parts),
                None => FrameRef::Rule,
            },
            FrameKind::Choice => match self.choices.last() {
                Some(choice) => FrameRef::Choice(choice),
                None => FrameRef::Rule,
            },
            FrameKind::Rounds => match self.rounds.last() {
                Some(rounds) => FrameRef::Rounds(rounds),
                None => FrameRef::Rule,
            },
            FrameKind::First => match self.firsts.last() {
                Some(chain) => FrameRef::First(chain),
                None => FrameRef::Rule,
            },
            FrameKind::Separator => match self.separators.last() {
                Some(links) => FrameRef::Separator(links),
                None => FrameRef::Rule,
            },
            FrameKind::Operand => match self.operands.last() {
                Some(operand) => FrameRef::Operand(operand),
                None => FrameRef::Rule,
            },
            FrameKind::Rule => FrameRef::Rule,
            FrameKind::Around => match self.arounds.last() {
                Some(around) => FrameRef::Around(around),
                None => FrameRef::Rule,
            },
            FrameKind::Expression => match self.expressions.last() {
                Some(expression) => FrameRef::Expression(expression),
                None => FrameRef::Rule,
            },
        }
    }

    /// Pops the newest frame of a sequence, if there is any.
    #[inline(always)]
    #[tactic(auto, using(crate::proofs::KindLists::newest_last))]
    pub(crate) fn take_parts(&mut self) -> Option<PartsFrame<'a>>
        ensures some { IfSome result (λ parts. newest (of_kind kind.Parts (by_kind self.old)) ≡ frame_of (frame.Parts parts)) }
        ensures none { IfNone result (newest (of_kind kind.Parts (by_kind self.old)) ≡ on_rule) }
        ensures others { without_newest kind.Parts (by_kind self.old) ≡ by_kind self.new }
    {
        self.parts.pop()
    }

    /// Pops the newest frame of a choice, if there is any.
    #[inline(always)]
    #[tactic(auto, using(crate::proofs::KindLists::newest_last))]
    pub(crate) fn take_choice(&mut self) -> Option<ChoiceFrame<'a>>
        ensures some { IfSome result (λ choice. newest (of_kind kind.Choice (by_kind self.old)) ≡ frame_of (frame.Choice choice)) }
        ensures none { IfNone result (newest (of_kind kind.Choice (by_kind self.old)) ≡ on_rule) }
        ensures others { without_newest kind.Choice (by_kind self.old) ≡ by_kind self.new }
    {
        self.choices.pop()
    }

    /// Pops the newest frame of a repetition, if there is any.
    #[inline(always)]
    #[tactic(auto, using(crate::proofs::KindLists::newest_last))]
    pub(crate) fn take_rounds(&mut self) -> Option<RoundsFrame>
        ensures some { IfSome result (λ rounds. newest (of_kind kind.Rounds (by_kind self.old)) ≡ frame_of (frame.Rounds rounds)) }
        ensures none { IfNone result (newest (of_kind kind.Rounds (by_kind self.old)) ≡ on_rule) }
        ensures others { without_newest kind.Rounds (by_kind self.old) ≡ by_kind self.new }
    {
        self.rounds.pop()
    }

    /// Updates the newest frame of a repetition in place, for a round that begins here with these marks, and gives the old one,
    /// if there is any.
    #[inline(always)]
    #[tactic(auto, using(crate::proofs::KindLists::last_newest, crate::proofs::KindLists::none_newest, crate::proofs::KindLists::newest_renewed, crate::proofs::KindLists::older_renewed))]
    pub(crate) fn renew_rounds(&mut self, start: usize, marks: Marks) -> Option<RoundsFrame>
        requires { (rounds : RoundsFrame) → newest (of_kind kind.Rounds (by_kind self.now)) ≡ frame_of (frame.Rounds rounds) → rounds.count < 2 ^ 64 - 1 }
        ensures before { IfSome result (λ before. newest (of_kind kind.Rounds (by_kind self.old)) ≡ frame_of (frame.Rounds before)) }
        ensures after { IfSome result (λ before. newest (of_kind kind.Rounds (by_kind self.new)) ≡
            on_rounds before.part (suc before.count) true start before.slot marks.forest marks.trail marks.operators before.messages) }
        ensures none { IfNone result (newest (of_kind kind.Rounds (by_kind self.old)) ≡ on_rule) }
        ensures same { IfNone result (by_kind self.new ≡ by_kind self.old) }
        ensures others { IfSome result (λ before. without_newest kind.Rounds (by_kind self.new) ≡ without_newest kind.Rounds (by_kind self.old)) }
    {
        let before = *self.rounds.last()?;
        let last = self.rounds.len() - 1;
        self.rounds[last] = RoundsFrame {
            part: before.part,
            count: before.count + 1,
            start,
            slot: before.slot,
            messages: before.messages,
            marks,
            consumed: true,
        };
        Some(before)
    }

    /// Pops the newest frame of a chain whose first operand runs, if there is any.
    #[inline(always)]
    #[tactic(auto, using(crate::proofs::KindLists::newest_last))]
    pub(crate) fn take_first(&mut self) -> Option<ChainFrame<'a>>
        ensures some { IfSome result (λ chain. newest (of_kind kind.First (by_kind self.old)) ≡ frame_of (frame.First chain)) }
        ensures none { IfNone result (newest (of_kind kind.First (by_kind self.old)) ≡ on_rule) }
        ensures others { without_newest kind.First (by_kind self.old) ≡ by_kind self.new }
    {
        self.firsts.pop()
    }

    /// Pops the newest frame of a chain whose separator runs, if there is any.
    #[inline(always)]
    #[tactic(auto, using(crate::proofs::KindLists::newest_last))]
    pub(crate) fn take_separator(&mut self) -> Option<Box<LinksFrame<'a>>>
        ensures some { IfSome result (λ links. newest (of_kind kind.Separator (by_kind self.old)) ≡ frame_of (frame.Separator links)) }
        ensures none { IfNone result (newest (of_kind kind.Separator (by_kind self.old)) ≡ on_rule) }
        ensures others { without_newest kind.Separator (by_kind self.old) ≡ by_kind self.new }
    {
        self.separators.pop()
    }

    /// Pops the newest frame of a chain whose operand after a separator runs, if there is any.
    #[inline(always)]
    #[tactic(auto, using(crate::proofs::KindLists::newest_last))]
    pub(crate) fn take_operand(&mut self) -> Option<OperandFrame<'a>>
        ensures some { IfSome result (λ operand. newest (of_kind kind.Operand (by_kind self.old)) ≡ frame_of (frame.Operand operand)) }
        ensures none { IfNone result (newest (of_kind kind.Operand (by_kind self.old)) ≡ on_rule) }
        ensures others { without_newest kind.Operand (by_kind self.old) ≡ by_kind self.new }
    {
        self.operands.pop()
    }

    /// Pops the newest frame of a form around a part, if there is any.
    #[inline(always)]
    #[tactic(auto, using(crate::proofs::KindLists::newest_last))]
    pub(crate) fn take_around(&mut self) -> Option<AroundFrame<'a>>
        ensures some { IfSome result (λ around. newest (of_kind kind.Around (by_kind self.old)) ≡ frame_of (frame.Around around)) }
        ensures none { IfNone result (newest (of_kind kind.Around (by_kind self.old)) ≡ on_rule) }
        ensures others { without_newest kind.Around (by_kind self.old) ≡ by_kind self.new }
    {
        self.arounds.pop()
    }

    /// Pops the newest frame of an expression, if there is any.
    #[inline(always)]
    #[tactic(auto, using(crate::proofs::KindLists::newest_last))]
    pub(crate) fn take_expression(&mut self) -> Option<Box<ExpressionFrame<'a>>>
        ensures some { IfSome result (λ expression. newest (of_kind kind.Expression (by_kind self.old)) ≡ frame_of (frame.Expression expression)) }
        ensures none { IfNone result (newest (of_kind kind.Expression (by_kind self.old)) ≡ on_rule) }
        ensures others { without_newest kind.Expression (by_kind self.old) ≡ by_kind self.new }
    {
        self.expressions.pop()
    }
}

/// Appends an item.
#[inline(always)]
fn put_last<T: Drop>(list: &mut Vec<T>, item: T) -> Result<(), AllocError>
    ensures { OnOk result (list.new.items ≡ list.old.items ++ item ∷ []) }
{
    list.reserve(1)?;
    list.push_reserved(item);
    Ok(())
}
