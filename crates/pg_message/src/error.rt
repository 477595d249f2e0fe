//! Errors of parsers, and how they are merged and labelled as parsers answer one after another.
//!
//! An error has a place, the position of that place, and messages. Two errors are merged by Text.Parsec's rule, except
//! that a text that is there already isn't added again. Texts are moved and never copied. If memory runs out, the error
//! stays as it was.

ghost use Rattle.std.specs.Prelude.{◌≡◌, string_bytes, OnOk, OnErr};
ghost use Rattle.pg_message.specs.Messages.{no_messages, with_message};
ghost use Rattle.pg_message.specs.Errors.{merged, labelled};

use crate::answer::AnswerKind;
use crate::kind::MessageKind;
use crate::messages::Messages;
use pg_text::Pos;
use std::alloc::{AllocError, Global};
use std::cmp::Ordering;
use std::mem::swap;

/// Why a parser failed, or why it didn't go on.
#[derive(Debug, Drop)]
pub struct ParseError {
    /// Its place in the text, in characters from 0.
    pub place: usize,
    /// The line and the column of the place.
    pub position: Pos,
    /// Its messages.
    pub messages: Messages,
}

impl ParseError {
    /// An error without messages at a place. The caller gives the place's position with it. It takes no memory.
    pub fn new(alloc: Global, place: usize, position: Pos) -> ParseError
        ensures place { result.place ≡ place }
        ensures position { result.position ≡ position }
        ensures messages { result.messages ≡ no_messages }
    {
        ParseError {
            place,
            position,
            messages: Messages::new(alloc),
        }
    }

    /// Adds a text at the end of its kind, even if it is there already. The only error is running out of memory; the
    /// text is then gone.
    pub fn add(&mut self, kind: MessageKind, text: String) -> Result<(), AllocError>
        ensures ok { OnOk result (self.new ≡
            record self.old { messages = with_message self.old.messages kind (string_bytes text) }) }
        ensures err { OnErr result (self.new ≡ self.old) }
    {
        self.messages.push(kind, text)
    }

    /// Merges this error with that of a later answer. If only one has messages, that one is left; otherwise the one at
    /// the later place. At the same place this one is left, with the other's messages after its own, except for texts
    /// that are there already (Text.Parsec.Error keeps these twice, and prints them once). The only error is running
    /// out of memory; the other is then gone.
    pub fn merge(&mut self, mut other: ParseError) -> Result<(), AllocError>
        ensures ok { OnOk result (self.new ≡ merged self.old other) }
        ensures err { OnErr result (self.new ≡ self.old) }
    {
        self.merge_out_of(&mut other)
    }

    /// As `merge`, with the other error borrowed; what is left in that one is unspecified.
    fn merge_out_of(&mut self, other: &mut ParseError) -> Result<(), AllocError>
        ensures ok { OnOk result (self.new ≡ merged self.old other.old) }
        ensures err { OnErr result (self.new ≡ self.old) }
    {
        if self.messages.is_empty() != other.messages.is_empty() {
            if self.messages.is_empty() {
                swap(self, other);
            }
            return Ok(());
        }
        match self.place.cmp(&other.place) {
            Ordering::Less => swap(self, other),
            Ordering::Greater => {}
            Ordering::Equal => self.messages.append(&mut other.messages)?,
        }
        Ok(())
    }

    /// Puts a label's name in place of all expected texts, if the parser consumed nothing (Text.Parsec's `<?>`). The
    /// error of a successful answer stays as it is if it has no messages. It takes no memory.
    pub fn label(&mut self, answer: AnswerKind, name: String)
        ensures { self.new ≡ labelled self.old answer (string_bytes name) }
    {
        match answer {
            AnswerKind::ConsumedOk | AnswerKind::ConsumedError => {}
            AnswerKind::EmptyOk if self.messages.is_empty() => {}
            AnswerKind::EmptyOk | AnswerKind::EmptyError => self.messages.rename(name),
        }
    }
}
