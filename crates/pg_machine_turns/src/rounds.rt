//! Repetitions: rounds of one part, until one fails empty.

ghost use Rattle.std.specs.Prelude.{◌≡◌, ◌<◌, ◌-◌, ◌^◌, take, IfOk, IfNone, IfSome};
ghost use Rattle.pg_language.specs.Answers.{Given};
ghost use Rattle.pg_machine_turns.specs.Tape.{tape_next_round, tape_rounds_end, tape_to_rounds, tape_turn, tape_with};
ghost use Rattle.pg_machine_turns.specs.View.{frame_of, on_lists, tape_of};
ghost use Rattle.pg_machine_turns.specs.ViewFrames.{newest};
ghost use Rattle.pg_machine_turns.specs.declared.frame.Frame.TheVariants as frame;
ghost use Rattle.pg_machine_turns.specs.declared.frame.RoundsFrame.{RoundsFrame};

use crate::frame::{Frame, Mode, Reply, RoundsFrame};
use crate::machine::Machine;
use pg_grammar_value::TrailItem;
use pg_machine_lists::Lists;
use pg_message_tape::TapeError;
use std::alloc::AllocError;

impl<'a> Machine<'a> {
    /// The turn if a round of the topmost frame consumed: the frame stays in place, and the next round runs. Otherwise it does
    /// nothing and gives none.
    #[inline(always)]
    #[tactic(auto, using(crate::proofs::Stack::round_more))]
    pub(crate) fn run_on(&mut self, reply: Reply) -> Result<Option<Mode>, AllocError>
        requires { (rounds : RoundsFrame) → newest self.now.frames ≡ frame_of (frame.Rounds rounds) → rounds.count < 2 ^ 64 - 1 }
        ensures some { IfOk result (λ next. IfSome next (λ mode. (G : Given) → tape_of mode self.new ≡
            tape_turn G (on_lists (tape_with reply) self.old))) }
        ensures none { IfOk result (λ next. IfNone next (on_lists (tape_with reply) self.new ≡ on_lists (tape_with reply) self.old)) }
        ensures frames { IfOk result (λ next. IfNone next (self.new.frames ≡ self.old.frames)) }
    {
        let Reply::Succeeded {
            consumed,
            end,
            error: _,
        } = reply
        else {
            return Ok(None);
        };
        if !consumed || !self.frames.ends_in_rounds() {
            return Ok(None);
        }
        let marks = self.marks()?;
        let Some(before) = self.frames.renew_rounds(end, marks) else {
            return Ok(None);
        };
        cut_messages(&mut self.lists, before.messages);
        Ok(Some(Mode::At(before.part, end)))
    }

    /// Handles an answer of a round: after one that consumed, the next one runs, and one that failed empty ends the repetition
    /// with its error alone.
    #[inline(always)]
    pub(crate) fn hand_to_rounds(
        &mut self,
        rounds: RoundsFrame,
        reply: Reply,
    ) -> Result<Mode, AllocError>
        requires { rounds.count < 2 ^ 64 - 1 }
        ensures { IfOk result (λ mode. tape_of mode self.new ≡
            on_lists (tape_to_rounds rounds.part rounds.count rounds.consumed rounds.start rounds.slot
            rounds.marks.forest rounds.marks.trail rounds.marks.operators rounds.messages reply) self.old) }
    {
        match reply {
            Reply::Succeeded {
                consumed,
                end,
                error: _,
            } => {
                if !consumed {
                    return Ok(Mode::With(Reply::EmptyRound));
                }
                self.next_round(rounds, end)
            }
            Reply::Failed { consumed, error } => {
                if consumed {
                    return Ok(Mode::With(Reply::Failed { consumed, error }));
                }
                self.end_rounds(rounds, error)
            }
            Reply::EmptyRound => Ok(Mode::With(Reply::EmptyRound)),
        }
    }

    /// Runs the next round after one that consumed.
    #[inline(always)]
    #[tactic(auto, using(std::proofs::lemmas::List::take_all))]
    fn next_round(&mut self, rounds: RoundsFrame, end: usize) -> Result<Mode, AllocError>
        requires { rounds.count < 2 ^ 64 - 1 }
        ensures { IfOk result (λ mode. tape_of mode self.new ≡
            on_lists (tape_next_round rounds.part rounds.count rounds.slot rounds.messages end) self.old) }
    {
        // There are seldom more.
        if rounds.messages < self.lists.messages.len() {
            self.lists.messages.cut(rounds.messages);
        }
        let marks = self.marks()?;
        let next = RoundsFrame {
            part: rounds.part,
            count: rounds.count + 1,
            consumed: true,
            start: end,
            slot: rounds.slot,
            marks,
            messages: rounds.messages,
        };
        self.enter_part(Frame::Rounds(next), rounds.part, end)
    }

    /// Ends the repetition before a round that failed empty.
    #[inline(always)]
    fn end_rounds(&mut self, rounds: RoundsFrame, error: TapeError) -> Result<Mode, AllocError>
        ensures { IfOk result (λ mode. tape_of mode self.new ≡
            on_lists (tape_rounds_end rounds.count rounds.consumed rounds.start rounds.slot
            rounds.marks.forest rounds.marks.trail rounds.marks.operators error) self.old) }
    {
        self.cut(rounds.marks);
        self.lists
            .note(rounds.slot, TrailItem::Rounds(rounds.count));
        Ok(Mode::With(Reply::Succeeded {
            consumed: rounds.consumed,
            end: rounds.start,
            error,
        }))
    }
}

/// Cuts the messages back to `most`. There are seldom more.
#[inline(always)]
#[tactic(auto, using(std::proofs::lemmas::List::take_all))]
fn cut_messages(lists: &mut Lists<'_>, most: usize)
    ensures forest { lists.new.forest ≡ lists.old.forest }
    ensures trail { lists.new.trail ≡ lists.old.trail }
    ensures messages { lists.new.messages ≡ take most lists.old.messages }
{
    if most < lists.messages.len() {
        lists.messages.cut(most);
    }
}
