//! One list with the messages of all errors of a run that may still be wanted.
//!
//! The messages of one error stand together, and those of the last answer's error stand at the end. So errors are
//! merged by leaving their messages in place, and dropped by cutting the list.

ghost use Rattle.std.specs.Prelude.{◌≡◌, ◌∷◌, ◌++◌, ◌-◌, ◌<◌, [], if◌then◌else◌, length, map, take, drop, IfOk, OnErr, OnOk};
ghost use Rattle.pg_language.specs.Errors.{without_position};
ghost use Rattle.pg_message_tape.specs.Messages.{tape_message_of, error_of, unexpected, relabelled};
ghost use Rattle.pg_message_tape.specs.Repeats.{said, repeated};
ghost use Rattle.pg_message_tape.specs.TapeErrors.{merged_tape_error, merged_messages, kept_at};

use crate::message::Message;
use crate::repeated::{Remainder, Repeated, after, may_come_in_turn, say_in_turn, shorten};
use crate::texts::told_once;
use pg_message::ParseError;
use pg_text::{Characters, Pos};
use std::alloc::{AllocError, Global};
use std::marker::Model;

/// The error of the last answer: its place, and where its messages begin. They reach to the end of the list.
#[derive(Clone, Copy)]
pub struct TapeError {
    /// Its place in the text, in characters from 0.
    pub place: usize,
    /// How many messages stand before its first.
    pub from: usize,
}

/// The error of an earlier answer, kept to be merged with later ones.
#[derive(Clone, Copy)]
pub struct KeptError {
    /// Its place in the text, in characters from 0.
    pub place: usize,
    /// How many messages stand before its first.
    pub from: usize,
    /// How many messages stand before the first that was added after it.
    pub upto: usize,
}

/// The messages, seen as the list of their kinds and texts.
#[derive(Drop)]
pub struct MessageTape<'a> {
    /// The messages, where repetitions by rows share an entry.
    entries: Vec<Repeated<'a>>,
    /// How many more messages than entries there are.
    more: usize,
}

impl<'a> Model for MessageTape<'a> {
    ghost use Rattle.std.specs.Prelude.{◌≡◌, ◌<◌, ◌^◌, List};
    ghost use Rattle.pg_message_tape.specs.Messages.{TapeMessage};
    ghost use Rattle.pg_message_tape.specs.Repeats.{said, more_said};

    ghost Value = { List TapeMessage };

    ghost view = { λ t. said t.entries.items };

    ghost invariant = { λ t. (t.more ≡ more_said t.entries.items) × (t.more < 2 ^ 63) };
}

/// The number of messages exceeds that of entries by at most this. A message beyond that becomes an entry of its own.
const MOST_MORE: usize = usize::MAX / 2;

impl<'a> MessageTape<'a> {
    /// An empty tape. It takes no memory.
    pub fn new(alloc: Global) -> MessageTape<'a>
        ensures { result ≡ [] }
    {
        MessageTape {
            entries: Vec::new(alloc),
            more: 0,
        }
    }

    /// How many messages there are.
    #[tactic(auto, using(crate::proofs::Repeats::length_said))]
    #[inline(always)]
    pub fn len(&self) -> usize
        ensures { result ≡ length self.now }
    {
        self.entries.len() + self.more
    }

    /// Appends a message.
    #[inline(always)]
    pub fn push(&mut self, message: Message<'a>) -> Result<(), AllocError>
        ensures { OnOk result (self.new ≡ self.old ++ tape_message_of message.entry ∷ []) }
    {
        if may_come_in_turn(&message, self.more) && self.say_in_turn(&message) {
            return Ok(());
        }
        self.push_new(message)
    }

    /// Appends a message as an entry of its own.
    #[inline(always)]
    fn push_new(&mut self, message: Message<'a>) -> Result<(), AllocError>
        ensures { OnOk result (self.new ≡ self.old ++ tape_message_of message.entry ∷ []) }
    {
        self.entries.push(Repeated {
            message,
            more: 0,
            nameless_first: false,
            nameless_second: true,
        })?;
        Ok(())
    }

    /// Counts the message in the last entry if it comes next there in turn and can be counted. Returns whether it did.
    #[inline(never)]
    fn say_in_turn(&mut self, message: &Message<'_>) -> bool
        ensures { self.new ≡ (if result then self.old ++ tape_message_of message.now ∷ [] else self.old) }
    {
        if self.more >= MOST_MORE {
            return false;
        }
        let again = say_in_turn(&mut self.entries, message);
        if again {
            self.more += 1;
        }
        again
    }

    /// Keeps the first `count` messages, or all if there are fewer.
    #[inline(always)]
    pub fn cut(&mut self, count: usize)
        ensures { self.new ≡ take count self.old }
    {
        if self.more == 0 {
            self.entries.truncate(count);
        } else {
            self.cut_counted(count);
        }
    }

    /// As `cut`, entry by entry, where some entries have a count.
    #[inline(never)]
    fn cut_counted(&mut self, count: usize)
        ensures { self.new ≡ take count self.old }
    {
        'cut: while count < self.len() {
            self.cut_last(count);
        }
    }

    /// Removes messages of the last entry, as far as they aren't among the first `count`. The tape has more than `count`.
    fn cut_last(&mut self, count: usize)
        requires { count < length self.old }
        ensures shorter { length self.new < length self.old }
        ensures first { take count self.new ≡ take count self.old }
    {
        let most = self.len() - count;
        self.more -= shorten(&mut self.entries, most);
    }

    /// The error of the last answer as one to be merged with later ones.
    #[inline(always)]
    pub fn kept(&self, error: TapeError) -> KeptError
        ensures { result ≡ kept_at (length self.now) error }
    {
        KeptError {
            place: error.place,
            from: error.from,
            upto: self.len(),
        }
    }

    /// Merges a kept error with that of the last answer. If only one of them has messages, that one is left; otherwise the later one. At the same place the
    /// kept one is left with the messages of both. The only error is running out of memory, and then what the list holds is unspecified.
    pub fn merge(&mut self, kept: KeptError, error: TapeError) -> Result<TapeError, AllocError>
        ensures error { IfOk result (λ merged. merged ≡ merged_tape_error kept error self.old) }
        ensures messages { OnOk result (self.new ≡ merged_messages kept error self.old) }
    {
        let none_kept = kept.from == kept.upto;
        let none_last = error.from == self.len();
        if none_kept != none_last {
            if none_kept {
                return Ok(error);
            }
            self.cut(kept.upto);
            return Ok(before(kept));
        }
        if kept.place < error.place {
            return Ok(error);
        }
        if kept.place == error.place {
            self.close(kept.upto, error.from)?;
        } else {
            self.cut(kept.upto);
        }
        Ok(before(kept))
    }

    /// Removes the messages from index `from` up to `upto`.
    fn close(&mut self, from: usize, upto: usize) -> Result<(), AllocError>
        ensures { OnOk result (self.new ≡ take from (take upto self.old) ++ drop upto self.old) }
    {
        if upto >= self.len() {
            self.cut(from);
            return Ok(());
        }
        if from == upto {
            return Ok(());
        }
        let last = self.take_off(upto)?;
        self.cut(from);
        self.put_back(last)
    }

    /// Moves the messages after the first `from` to a tape of their own.
    fn take_off(&mut self, from: usize) -> Result<MessageTape<'a>, AllocError>
        ensures after { IfOk result (λ own. own ≡ drop from self.old) }
        ensures before { OnOk result (self.new ≡ take from self.old) }
    {
        if self.more > 0 {
            return self.take_off_counted(from);
        }
        let own = split_off(&mut self.entries, from)?;
        Ok(MessageTape {
            entries: own,
            more: 0,
        })
    }

    /// As `take_off`, entry by entry, where some entries have a count.
    fn take_off_counted(&mut self, from: usize) -> Result<MessageTape<'a>, AllocError>
        ensures after { IfOk result (λ own. own ≡ drop from self.old) }
        ensures before { OnOk result (self.new ≡ take from self.old) }
    {
        let own = self.copied(from)?;
        self.cut(from);
        Ok(own)
    }

    /// A copy of the messages after the first `from`.
    fn copied(&self, from: usize) -> Result<MessageTape<'a>, AllocError>
        ensures { IfOk result (λ own. own ≡ drop from self.now) }
    {
        let after = after(&self.entries, self.len(), from);
        let mut own = MessageTape::new(*self.entries.allocator());
        own.push_after(after)?;
        Ok(own)
    }

    /// Appends the messages of a remainder.
    fn push_after(&mut self, after: Remainder<'_, 'a>) -> Result<(), AllocError>
        ensures { OnOk result (self.new ≡ self.old ++ drop after.entry.skipped (said after.entry.entries.now)) }
    {
        let mut skipped = after.skipped;
        for entry in after.entries {
            skipped = self.push_but(*entry, skipped)?;
        }
        Ok(())
    }

    /// Appends the messages of an entry after the first `skipped`. Returns how many of those to skip the entry didn't have.
    fn push_but(&mut self, entry: Repeated<'a>, skipped: usize) -> Result<usize, AllocError>
        ensures pushed { OnOk result (self.new ≡ self.old ++ drop skipped (repeated entry.entry)) }
        ensures left { IfOk result (λ left. left ≡ skipped - length (repeated entry.entry)) }
    {
        let more = entry.more as usize;
        if more < skipped {
            return Ok(skipped - more - 1);
        }
        self.push_repeated(entry.without(skipped))?;
        Ok(0)
    }

    /// Appends the messages of an entry.
    fn push_repeated(&mut self, entry: Repeated<'a>) -> Result<(), AllocError>
        ensures { OnOk result (self.new ≡ self.old ++ repeated entry.entry) }
    {
        let more = self.more + entry.more as usize;
        if more > MOST_MORE {
            return Err(AllocError);
        }
        self.entries.push(entry)?;
        self.more = more;
        Ok(())
    }

    /// Appends the messages of another tape.
    fn put_back(&mut self, other: MessageTape<'a>) -> Result<(), AllocError>
        ensures { OnOk result (self.new ≡ self.old ++ other.entry) }
    {
        let MessageTape { entries, more } = other;
        let more = self.more + more;
        if more > MOST_MORE {
            return Err(AllocError);
        }
        let mut entries = entries;
        self.entries.append(&mut entries)?;
        self.more = more;
        Ok(())
    }

    /// Makes this name the only expectation of the error whose messages begin at index `from`. The only error is running out of memory, and then what the
    /// list holds is unspecified.
    pub fn relabel(&mut self, from: usize, name: &'a Characters) -> Result<(), AllocError>
        ensures { OnOk result (self.new ≡ relabelled name.now from self.old) }
    {
        let own = self.take_off(from)?;
        self.push_unexpected(own.entries.as_slice())?;
        self.push(Message::Named(name.as_slice()))
    }

    /// Appends the messages of these entries that don't say what was expected.
    fn push_unexpected(&mut self, entries: &[Repeated<'a>]) -> Result<(), AllocError>
        ensures { OnOk result (self.new ≡ self.old ++ unexpected (said entries.now)) }
    {
        for entry in entries {
            self.push_own(*entry)?;
        }
        Ok(())
    }

    /// Appends the messages of an entry that don't say what was expected.
    fn push_own(&mut self, entry: Repeated<'a>) -> Result<(), AllocError>
        ensures { OnOk result (self.new ≡ self.old ++ unexpected (repeated entry.entry)) }
    {
        let times = entry.own_times();
        if times == 0 || entry.message.is_expected() {
            return Ok(());
        }
        self.push_repeated(Repeated {
            message: entry.message,
            more: (times - 1) as u32,
            nameless_first: false,
            nameless_second: false,
        })
    }

    /// The error of the last answer with its texts. The caller gives its position.
    pub fn error(
        &self,
        alloc: Global,
        error: TapeError,
        position: Pos,
    ) -> Result<ParseError, AllocError>
        ensures error { IfOk result (λ e. without_position e ≡ error_of error.place (drop error.from self.now)) }
        ensures position { IfOk result (λ e. e.position ≡ position) }
    {
        let own = self.copied(error.from)?;
        told_once(alloc, error.place, position, own.entries.as_slice())
    }
}

/// A kept error as that of the last answer again.
fn before(kept: KeptError) -> TapeError
    ensures place { result.place ≡ kept.place }
    ensures from { result.from ≡ kept.from }
{
    TapeError {
        place: kept.place,
        from: kept.from,
    }
}

/// Splits off the entries after the first. If memory runs out, all stay.
fn split_off<'a>(
    entries: &mut Vec<Repeated<'a>>,
    from: usize,
) -> Result<Vec<Repeated<'a>>, AllocError>
    ensures after { IfOk result (λ own. own.items ≡ drop from entries.old.items) }
    ensures before { OnOk result (entries.new.items ≡ take from entries.old.items) }
    ensures kept { OnErr result (entries.new.items ≡ entries.old.items) }
{
    entries.split_off(from.min(entries.len()))
}

#[cfg(test)]
mod tests;
