//! Choices: the first alternative that consumes or is ok gives the answer.

ghost use Rattle.std.specs.Prelude.{◌≡◌, ◌<◌, ◌-◌, ◌^◌, ◌++◌, false, drop, take, length, IfOk, OnOk};
ghost use Rattle.pg_table.specs.Tables.{first_operators};
ghost use Rattle.pg_machine_turns.specs.Tape.{tape_with, tried_failure, tried_empty_ok, tape_to_choice, tape_next_alternative, tape_past_failed, tape_settled, tape_empty_ok, tried_kept, tried_messages, tried_with_failure, tried_with_empty_ok};
ghost use Rattle.pg_machine_lists.specs.RunTrees.{first_trees, hidden_after, rejoined};
ghost use Rattle.pg_machine_turns.specs.View.{tried_of, on_lists, tape_of};
ghost use Rattle.pg_message_tape.specs.TapeErrors.{kept_at, merged_tape_error, merged_messages};
ghost use Rattle.pg_language.specs.declared.reading.Reading.TheVariants.{Report};
ghost use Rattle.pg_machine_turns.specs.declared.frame.Reply.TheVariants.{Succeeded};

use crate::frame::{ChoiceFrame, EmptyOk, Frame, Marks, Mode, Reply, Tried};
use crate::machine::{Machine, counted};
use pg_grammar_form::NodeId;
use pg_grammar_value::TrailItem;
use pg_language::Reading;
use pg_machine_lists::Lists;
use pg_message_tape::{KeptError, MessageTape, TapeError};
use std::alloc::{AllocError, Global};

impl<'a> Machine<'a> {
    /// Handles an answer of an alternative. The next one runs only if this one consumed nothing, and after an ok answer
    /// only in the report's reading.
    #[inline(always)]
    pub(crate) fn hand_to_choice(
        &mut self,
        alloc: Global,
        reading: Reading,
        choice: ChoiceFrame<'a>,
        reply: Reply,
    ) -> Result<Mode, AllocError>
        requires { choice.which < 2 ^ 64 - 1 }
        ensures { IfOk result (λ mode. tape_of mode self.new ≡
            on_lists (tape_to_choice reading choice.entry.which choice.entry.rest.now choice.entry.start (tried_of choice.entry.tried)
            choice.entry.marks.forest choice.entry.marks.trail choice.entry.marks.operators reply) self.old) }
    {
        match reply {
            Reply::Succeeded {
                consumed,
                end,
                error,
            } => {
                if consumed {
                    return self.settled(choice.tried, choice.marks, reply);
                }
                match reading {
                    Reading::Library => self.settled(choice.tried, choice.marks, reply),
                    Reading::Report => { self.past_empty_ok(alloc, choice, end, error) }
                }
            }
            Reply::Failed { consumed, error } => {
                if consumed {
                    return self.settled(choice.tried, choice.marks, reply);
                }
                self.past_failed(choice, error)
            }
            Reply::EmptyRound => Ok(Mode::With(Reply::EmptyRound)),
        }
    }

    /// Runs the next alternative after one that was ok and empty, in the report's reading.
    #[inline(always)]
    fn past_empty_ok(
        &mut self,
        alloc: Global,
        choice: ChoiceFrame<'a>,
        end: usize,
        error: TapeError,
    ) -> Result<Mode, AllocError>
        requires { choice.which < 2 ^ 64 - 1 }
        ensures { IfOk result (λ mode. tape_of mode self.new ≡
            on_lists (tape_empty_ok Report choice.entry.which choice.entry.rest.now choice.entry.start (tried_of choice.entry.tried)
            choice.entry.marks.forest choice.entry.marks.trail choice.entry.marks.operators end error) self.old) }
    {
        let kept = tried_error(&mut self.lists.messages, &choice.tried, error)?;
        let tried = self.keep_ok(alloc, choice.tried, kept, choice.marks, end)?;
        self.next_alternative(choice.which as usize + 1, choice.rest, choice.start, tried)
    }

    /// Runs the next alternative after one that failed empty.
    #[inline(always)]
    fn past_failed(&mut self, choice: ChoiceFrame<'a>, error: TapeError) -> Result<Mode, AllocError>
        requires { choice.which < 2 ^ 64 - 1 }
        ensures { IfOk result (λ mode. tape_of mode self.new ≡
            on_lists (tape_past_failed choice.entry.which choice.entry.rest.now choice.entry.start (tried_of choice.entry.tried)
            choice.entry.marks.forest choice.entry.marks.trail choice.entry.marks.operators error) self.old) }
    {
        self.cut(choice.marks);
        let kept = tried_error(&mut self.lists.messages, &choice.tried, error)?;
        let tried = keep_failure(choice.tried, kept);
        self.next_alternative(choice.which as usize + 1, choice.rest, choice.start, tried)
    }

    /// Runs the next alternative; the choice fails if none is left.
    #[inline(always)]
    pub(crate) fn next_alternative(
        &mut self,
        which: usize,
        rest: &'a [NodeId],
        start: usize,
        tried: Tried,
    ) -> Result<Mode, AllocError>
        ensures { IfOk result (λ mode. tape_of mode self.new ≡
            on_lists (tape_next_alternative which rest.now start (tried_of tried)) self.old) }
    {
        let marks = self.marks()?;
        match rest.split_first() {
            Some((part, rest)) => {
                self.push(Frame::Choice(ChoiceFrame {
                    rest,
                    start,
                    tried,
                    marks,
                    which: counted(which)?,
                }))?;
                self.push_item(TrailItem::Alt(which))?;
                Ok(Mode::At(*part, start))
            }
            None => {
                let error = self.lists.no_messages_at(start);
                let consumed = false;
                self.settled(tried, marks, Reply::Failed { consumed, error })
            }
        }
    }

    /// The choice's answer after its last one, which takes account of the alternatives before.
    #[inline(always)]
    fn settled(&mut self, tried: Tried, marks: Marks, reply: Reply) -> Result<Mode, AllocError>
        ensures { IfOk result (λ mode. tape_of mode self.new ≡
            on_lists (tape_settled (tried_of tried) marks.forest marks.trail marks.operators reply) self.old) }
    {
        match tried {
            Tried::Nothing => Ok(Mode::With(reply)),
            Tried::Failure(kept) => self.past_failure(kept, reply),
            Tried::EmptyOk(ok) => self.after_empty_ok(Box::into_inner(ok), marks, reply),
        }
    }

    /// The choice's answer after alternatives that failed.
    #[inline(always)]
    fn past_failure(&mut self, kept: KeptError, reply: Reply) -> Result<Mode, AllocError>
        ensures { IfOk result (λ mode. tape_of mode self.new ≡
            on_lists (tape_settled (tried_failure kept) 0 0 0 reply) self.old) }
    {
        match reply {
            Reply::Succeeded {
                consumed,
                end,
                error,
            } => {
                let error = self.lists.error_after(kept, consumed, error)?;
                Ok(Mode::With(Reply::Succeeded {
                    consumed,
                    end,
                    error,
                }))
            }
            Reply::Failed { consumed, error } => {
                let error = self.lists.error_after(kept, consumed, error)?;
                Ok(Mode::With(Reply::Failed { consumed, error }))
            }
            Reply::EmptyRound => Ok(Mode::With(Reply::EmptyRound)),
        }
    }

    /// The choice's answer after an alternative that was ok and empty: it is that one's, unless this one consumed.
    #[inline(always)]
    fn after_empty_ok(
        &mut self,
        ok: EmptyOk,
        marks: Marks,
        reply: Reply,
    ) -> Result<Mode, AllocError>
        ensures { IfOk result (λ mode. tape_of mode self.new ≡
            on_lists (tape_settled (tried_empty_ok ok.end ok.forest ok.hidden ok.trail.items ok.kept) marks.forest marks.trail marks.operators reply) self.old) }
    {
        match reply {
            Reply::Succeeded {
                consumed,
                end: _,
                error,
            } => {
                if consumed {
                    return Ok(Mode::With(reply));
                }
                self.restore(ok, marks, error)
            }
            Reply::Failed { consumed, error } => {
                if consumed {
                    return Ok(Mode::With(reply));
                }
                self.restore(ok, marks, error)
            }
            Reply::EmptyRound => Ok(Mode::With(Reply::EmptyRound)),
        }
    }

    /// Answers with the alternative that was ok and empty, with its error merged with the last one.
    #[cold]
    #[inline(never)]
    fn restore(&mut self, ok: EmptyOk, marks: Marks, error: TapeError) -> Result<Mode, AllocError>
        ensures { IfOk result (λ mode. tape_of mode self.new ≡
            tape_with (Succeeded false ok.end (merged_tape_error ok.kept error self.old.lists.messages)) self.old.frames
            (rejoined ok.forest ok.hidden (first_trees marks.forest self.old.lists.forest)) (take marks.trail self.old.lists.trail.items ++ ok.trail.items) (merged_messages ok.kept error self.old.lists.messages)
            (first_operators marks.operators self.old.table)) }
    {
        let error = self.lists.messages.merge(ok.kept, error)?;
        self.cut(marks);
        let EmptyOk {
            end,
            forest,
            hidden,
            mut trail,
            ..
        } = ok;
        self.lists.forest.rejoin(forest, hidden)?;
        self.lists.trail.append(&mut trail)?;
        let consumed = false;
        Ok(Mode::With(Reply::Succeeded {
            consumed,
            end,
            error,
        }))
    }

    /// Keeps one more alternative that was ok and empty, and takes its trees and items off the lists. It drops operators after
    /// the marks; there are none, since the answer consumed nothing.
    #[cold]
    #[inline(never)]
    fn keep_ok(
        &mut self,
        alloc: Global,
        tried: Tried,
        kept: KeptError,
        marks: Marks,
        end: usize,
    ) -> Result<Tried, AllocError>
        ensures tried { IfOk result (λ after. tried_of after ≡
            tried_with_empty_ok (tried_of tried) end (drop marks.forest self.old.lists.forest.kept) (hidden_after marks.forest self.old.lists.forest) (drop marks.trail self.old.lists.trail.items) kept) }
        ensures frames { OnOk result (self.new.frames ≡ self.old.frames) }
        ensures forest { OnOk result (self.new.lists.forest ≡ first_trees marks.forest self.old.lists.forest) }
        ensures trail { OnOk result (self.new.lists.trail.items ≡ take marks.trail self.old.lists.trail.items) }
        ensures messages { OnOk result (self.new.lists.messages ≡ self.old.lists.messages) }
        ensures table { OnOk result (self.new.table ≡ first_operators marks.operators self.old.table) }
    {
        match tried {
            Tried::Nothing | Tried::Failure(_) => {
                let ok = taken_off(alloc, &mut self.lists, marks, end, kept)?;
                self.table.cut(marks.operators as usize);
                Ok(Tried::EmptyOk(Box::new(alloc, ok)?))
            }
            Tried::EmptyOk(mut ok) => {
                self.cut(marks);
                ok.kept = kept;
                Ok(Tried::EmptyOk(ok))
            }
        }
    }
}

/// Takes the trees and items after the marks off the lists.
#[cold]
#[inline(never)]
fn taken_off(
    alloc: Global,
    lists: &mut Lists<'_>,
    marks: Marks,
    end: usize,
    kept: KeptError,
) -> Result<EmptyOk, AllocError>
    ensures end { IfOk result (λ ok. ok.end ≡ end) }
    ensures kept { IfOk result (λ ok. ok.kept ≡ kept) }
    ensures tried_forest { IfOk result (λ ok. ok.forest ≡ drop marks.forest lists.old.forest.kept) }
    ensures tried_hidden { IfOk result (λ ok. ok.hidden ≡ hidden_after marks.forest lists.old.forest) }
    ensures tried_trail { IfOk result (λ ok. ok.trail.items ≡ drop marks.trail lists.old.trail.items) }
    ensures forest { OnOk result (lists.new.forest ≡ first_trees marks.forest lists.old.forest) }
    ensures trail { OnOk result (lists.new.trail.items ≡ take marks.trail lists.old.trail.items) }
    ensures messages { OnOk result (lists.new.messages ≡ lists.old.messages) }
{
    let count = marks.forest;
    let hidden = lists.forest.hidden_after(count);
    let forest = lists.forest.split_off(alloc, count)?;
    let from = (marks.trail as usize).min(lists.trail.len());
    let trail = lists.trail.split_off(from)?;
    Ok(EmptyOk {
        end,
        forest,
        hidden,
        trail,
        kept,
    })
}

/// The error to keep after one more alternative that consumed nothing.
#[inline(always)]
fn tried_error(
    messages: &mut MessageTape<'_>,
    tried: &Tried,
    error: TapeError,
) -> Result<KeptError, AllocError>
    ensures kept { IfOk result (λ kept. kept ≡ tried_kept (tried_of tried.now) error messages.old) }
    ensures messages { OnOk result (messages.new ≡ tried_messages (tried_of tried.now) error messages.old) }
{
    match tried {
        Tried::Nothing => Ok(messages.kept(error)),
        Tried::Failure(kept) => merged(messages, *kept, error),
        Tried::EmptyOk(ok) => merged(messages, ok.kept, error),
    }
}

/// The kept error, merged with one more.
#[inline(always)]
fn merged(
    messages: &mut MessageTape<'_>,
    before: KeptError,
    error: TapeError,
) -> Result<KeptError, AllocError>
    ensures kept { IfOk result (λ kept. kept ≡ kept_at (length (merged_messages before error messages.old)) (merged_tape_error before error messages.old)) }
    ensures messages { OnOk result (messages.new ≡ merged_messages before error messages.old) }
{
    let error = messages.merge(before, error)?;
    Ok(messages.kept(error))
}

/// Keeps one more alternative that failed, with the error to keep from now on.
#[inline(always)]
fn keep_failure(tried: Tried, kept: KeptError) -> Tried
    ensures { tried_of result ≡ tried_with_failure (tried_of tried) kept }
{
    match tried {
        Tried::Nothing | Tried::Failure(_) => Tried::Failure(kept),
        Tried::EmptyOk(mut ok) => {
            ok.kept = kept;
            Tried::EmptyOk(ok)
        }
    }
}
