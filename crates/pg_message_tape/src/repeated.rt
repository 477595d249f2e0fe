//! Messages that alternate, kept as one entry with a count.
//!
//! Each row of an expression that reads no prefix adds the same messages at the same place: that something without a name was expected, alone or after the
//! message of what stopped there. A text may open an expression at each depth, so such repetitions are counted and take the room of one message.
//! `specs/Repeats.antt` says which messages entries stand for; the tape of messages relies on it.

ghost use Rattle.std.specs.Prelude.{◌≡◌, ◌∷◌, ◌++◌, ◌+◌, ◌<◌, ◌≤◌, ℕ, true, [], if◌then◌else◌, length, take, drop};
ghost use Rattle.pg_message_tape.specs.Messages.{tape_message_of};
ghost use Rattle.pg_message_tape.specs.declared.message.Message.TheVariants.{Stopped};
ghost use Rattle.pg_message_tape.specs.Repeats.{said, more_said, repeated, first_of, second_of, next_of, own_times, or_nameless, is_nameless};

use crate::message::Message;

/// An entry: two messages that alternate, each either the message or the nameless one. It has the first, and `more` after it.
#[derive(Clone, Copy)]
pub(crate) struct Repeated<'a> {
    pub message: Message<'a>,
    pub more: u32,
    /// Whether the first, the third and so on say that something without a name was expected.
    pub nameless_first: bool,
    /// Whether the second, the fourth and so on say so.
    pub nameless_second: bool,
}

/// The messages of some entries but for the first `skipped`.
#[derive(Clone, Copy)]
pub(crate) struct Remainder<'m, 'a> {
    pub entries: &'m [Repeated<'a>],
    pub skipped: usize,
}

impl<'a> Repeated<'a> {
    /// Its first message.
    pub fn first(&self) -> Message<'a>
        ensures { tape_message_of result ≡ first_of self.now }
    {
        or_nameless(self.nameless_first, self.message)
    }

    /// Its second message, if it has one.
    pub fn second(&self) -> Message<'a>
        ensures { tape_message_of result ≡ second_of self.now }
    {
        or_nameless(self.nameless_second, self.message)
    }

    /// The message that would continue it.
    fn next(&self) -> Message<'a>
        ensures { tape_message_of result ≡ next_of self.now }
    {
        if self.more % 2 == 0 {
            self.second()
        } else {
            self.first()
        }
    }

    /// The entry without its first `skipped` messages.
    pub fn without(self, skipped: usize) -> Repeated<'a>
        requires { skipped ≤ self.more }
        ensures { repeated result ≡ drop skipped (repeated self.entry) }
    {
        let (first, second) = if skipped % 2 == 0 {
            (self.nameless_first, self.nameless_second)
        } else {
            (self.nameless_second, self.nameless_first)
        };
        Repeated {
            message: self.message,
            more: (self.more as usize - skipped) as u32,
            nameless_first: first,
            nameless_second: second,
        }
    }

    /// How many times its own message occurs in it.
    pub fn own_times(&self) -> usize
        ensures { result ≡ own_times self.now }
    {
        let all = self.more as usize + 1;
        match (self.nameless_first, self.nameless_second) {
            (false, false) => all,
            (false, true) => (all + 1) / 2,
            (true, false) => all / 2,
            (true, true) => 0,
        }
    }
}

/// The message, or the nameless one in its place.
fn or_nameless<'a>(replaced: bool, message: Message<'a>) -> Message<'a>
    ensures { tape_message_of result ≡ or_nameless replaced message.entry }
{
    if replaced {
        Message::WantedNameless
    } else {
        message
    }
}

/// Whether it says that something without a name was expected.
#[inline(always)]
pub(crate) fn is_nameless(message: &Message<'_>) -> bool
    ensures { result ≡ is_nameless message.now }
{
    match message {
        Message::Stopped(_)
        | Message::Refused(_)
        | Message::Reserved(_)
        | Message::Wanted(_)
        | Message::WantedEnd
        | Message::Named(_)
        | Message::WantedDeclaration
        | Message::WantedPrecedence
        | Message::WantedSymbol
        | Message::NotAdmitted(_, _)
        | Message::WantedOperator
        | Message::Ambiguous(_) => false,
        Message::WantedNameless => true,
    }
}

/// Whether rows repeat such a message: the nameless one, or, where some messages are counted already, one that says what stopped a leaf.
#[inline(always)]
pub(crate) fn may_come_in_turn(message: &Message<'_>, counted: usize) -> bool {
    match message {
        Message::Refused(_)
        | Message::Reserved(_)
        | Message::Wanted(_)
        | Message::WantedEnd
        | Message::Named(_)
        | Message::WantedDeclaration
        | Message::WantedPrecedence
        | Message::WantedSymbol
        | Message::NotAdmitted(_, _)
        | Message::WantedOperator
        | Message::Ambiguous(_) => false,
        Message::Stopped(_) => counted > 0,
        Message::WantedNameless => true,
    }
}

/// Whether a message is the one that comes next in turn.
fn is_next(next: &Message<'_>, message: &Message<'_>) -> bool
    ensures { result ≡ true → tape_message_of message.now ≡ tape_message_of next.now }
{
    match message {
        Message::Refused(_)
        | Message::Reserved(_)
        | Message::Wanted(_)
        | Message::WantedEnd
        | Message::Named(_)
        | Message::WantedDeclaration
        | Message::WantedPrecedence
        | Message::WantedSymbol
        | Message::NotAdmitted(_, _)
        | Message::WantedOperator
        | Message::Ambiguous(_) => false,
        Message::Stopped(at) => is_stopped(next, *at),
        Message::WantedNameless => is_nameless(next),
    }
}

/// Whether it says that a leaf stopped at this character or at the end.
fn is_stopped(message: &Message<'_>, at: Option<char>) -> bool
    ensures { result ≡ true → tape_message_of message.now ≡ tape_message_of (Stopped at) }
{
    match message {
        Message::Stopped(next) => *next == at,
        Message::Refused(_)
        | Message::Reserved(_)
        | Message::Wanted(_)
        | Message::WantedEnd
        | Message::Named(_)
        | Message::WantedDeclaration
        | Message::WantedPrecedence
        | Message::WantedSymbol
        | Message::NotAdmitted(_, _)
        | Message::WantedOperator
        | Message::Ambiguous(_)
        | Message::WantedNameless => false,
    }
}

/// Counts the message in the last entry if it comes next there in turn and can be counted. Returns whether it did.
pub(crate) fn say_in_turn<'a>(entries: &mut Vec<Repeated<'a>>, message: &Message<'_>) -> bool
    ensures said { said entries.new.items ≡ (if result then said entries.old.items ++ tape_message_of message.now ∷ [] else said entries.old.items) }
    ensures more { more_said entries.new.items ≡ (if result then more_said entries.old.items + 1 else more_said entries.old.items) }
{
    match entries.as_slice().split_last() {
        None => false,
        Some((last, rest)) => {
            let (at, more) = (rest.len(), last.more);
            if more == u32::MAX || !is_next(&last.next(), message) {
                return false;
            }
            entries[at] = Repeated {
                more: more + 1,
                ..*last
            };
            true
        }
    }
}

/// Removes the last entry, or `most` messages of it if it has more. Returns by how much the excess of messages over
/// entries falls.
pub(crate) fn shorten<'a>(entries: &mut Vec<Repeated<'a>>, most: usize) -> usize
    requires some { 0 < most }
    requires entry { 0 < length entries.old.items }
    ensures more { more_said entries.new.items + result ≡ more_said entries.old.items }
    ensures shorter { length (said entries.new.items) < length (said entries.old.items) }
    ensures first { (n : ℕ) → n + most ≡ length (said entries.old.items) → take n (said entries.new.items) ≡ take n (said entries.old.items) }
{
    match entries.as_slice().split_last() {
        None => 0,
        Some((last, rest)) => {
            let (at, more) = (rest.len(), last.more as usize);
            if more < most {
                entries.truncate(at);
                return more;
            }
            entries[at] = Repeated {
                more: (more - most) as u32,
                ..*last
            };
            most
        }
    }
}

/// What is said after the first messages, if there are at least that many. It looks at no more entries than it has to.
#[tactic(auto, using(crate::proofs::Repeats::one_more))]
pub(crate) fn after<'m, 'a>(
    entries: &'m [Repeated<'a>],
    all: usize,
    from: usize,
) -> Remainder<'m, 'a>
    requires { all ≡ length (said entries.now) }
    ensures { drop result.skipped (said result.entries.now) ≡ drop from (said entries.now) }
{
    let mut first = entries.len();
    let mut before = all;
    'back: while from < before && first > 0 {
        first -= 1;
        before -= 1 + entries[first].more as usize;
    }
    Remainder {
        entries: &entries[first..],
        skipped: from - before,
    }
}
