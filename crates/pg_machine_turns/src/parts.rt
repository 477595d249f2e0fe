//! Sequences: parts one after another.

ghost use Rattle.std.specs.Prelude.{◌≡◌, IfOk, OnOk};
ghost use Rattle.pg_machine_turns.specs.Tape.{tape_to_parts, tape_next_part, joined_consumed, joined_tape_error, joined_messages, tape_error_past, messages_past};
ghost use Rattle.pg_machine_turns.specs.View.{on_lists, tape_of};

use crate::frame::{Before, Frame, Mode, PartsFrame, Reply};
use crate::machine::Machine;
use pg_grammar_form::NodeId;
use pg_machine_lists::Lists;
use pg_message_tape::{KeptError, TapeError};
use std::alloc::AllocError;

impl<'a> Machine<'a> {
    /// Handles an answer of a part: if it is ok, the next part runs, and the last part's answer is the whole's.
    #[inline(always)]
    pub(crate) fn hand_to_parts(
        &mut self,
        parts: PartsFrame<'a>,
        reply: Reply,
    ) -> Result<Mode, AllocError>
        ensures { IfOk result (λ mode. tape_of mode self.new ≡
            on_lists (tape_to_parts parts.entry.rest.now parts.entry.before reply) self.old) }
    {
        match reply {
            Reply::Succeeded {
                consumed,
                end,
                error,
            } => {
                let error = joined(&mut self.lists, parts.before, consumed, error)?;
                self.next_part(parts.rest, has_consumed(parts.before, consumed), end, error)
            }
            Reply::Failed { consumed, error } => {
                let error = joined(&mut self.lists, parts.before, consumed, error)?;
                let consumed = has_consumed(parts.before, consumed);
                Ok(Mode::With(Reply::Failed { consumed, error }))
            }
            Reply::EmptyRound => Ok(Mode::With(Reply::EmptyRound)),
        }
    }

    /// Runs the next part, or ends the sequence.
    #[inline(always)]
    fn next_part(
        &mut self,
        rest: &'a [NodeId],
        consumed: bool,
        end: usize,
        error: TapeError,
    ) -> Result<Mode, AllocError>
        ensures { IfOk result (λ mode. tape_of mode self.new ≡
            on_lists (tape_next_part rest.now consumed end error) self.old) }
    {
        match rest.split_first() {
            Some((part, rest)) => {
                let kept = self.lists.messages.kept(error);
                let before = Some(Before { consumed, kept });
                self.enter_part(Frame::Parts(PartsFrame { rest, before }), *part, end)
            }
            None => Ok(Mode::With(Reply::Succeeded {
                consumed,
                end,
                error,
            })),
        }
    }
}

/// The error of an answer, put after that of the earlier parts.
#[inline(always)]
fn joined(
    lists: &mut Lists<'_>,
    before: Option<Before>,
    consumed: bool,
    error: TapeError,
) -> Result<TapeError, AllocError>
    ensures error { IfOk result (λ after. after ≡ joined_tape_error before consumed error lists.old.messages) }
    ensures forest { OnOk result (lists.new.forest ≡ lists.old.forest) }
    ensures trail { OnOk result (lists.new.trail ≡ lists.old.trail) }
    ensures messages { OnOk result (lists.new.messages ≡ joined_messages before consumed error lists.old.messages) }
{
    match before {
        Some(before) => past(lists, before.kept, consumed, error),
        None => Ok(error),
    }
}

/// The error put after a kept one. Drops messages that belong to no error any more, if no others would have to move.
#[inline(always)]
fn past(
    lists: &mut Lists<'_>,
    kept: KeptError,
    consumed: bool,
    error: TapeError,
) -> Result<TapeError, AllocError>
    ensures error { IfOk result (λ after. after ≡ tape_error_past consumed kept error lists.old.messages) }
    ensures forest { OnOk result (lists.new.forest ≡ lists.old.forest) }
    ensures trail { OnOk result (lists.new.trail ≡ lists.old.trail) }
    ensures messages { OnOk result (lists.new.messages ≡ messages_past consumed kept error lists.old.messages) }
{
    if !consumed {
        return lists.error_after(kept, false, error);
    }
    if error.from != lists.messages.len() {
        return Ok(error);
    }
    lists.messages.cut(kept.from);
    Ok(TapeError {
        place: error.place,
        from: kept.from,
    })
}

/// Whether the earlier parts or this one consumed.
fn has_consumed(before: Option<Before>, consumed: bool) -> bool
    ensures { result ≡ joined_consumed before consumed }
{
    match before {
        Some(before) => before.consumed || consumed,
        None => consumed,
    }
}
