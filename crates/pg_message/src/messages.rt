//! The messages of an error: four lists of texts, one for each kind.
//!
//! Each list keeps its first text inline. Most lists have no more, so most errors are made and merged without an
//! allocation. Texts are moved from error to error and never copied. If memory runs out, the messages stay as they
//! were: room is made in all lists before anything moves, and only for texts that are new.

ghost use Rattle.std.specs.Prelude.{◌≡◌, ◌∷◌, [], string_bytes, OnOk, OnErr};
ghost use Rattle.smallvec.specs.SmallVec.{HasRoomFor};
ghost use Rattle.pg_message.specs.Messages.{no_messages, is_empty, of_kind, with_message, with_messages, with_texts, missing_count, has_text};

use crate::kind::MessageKind;
use crate::message_text::MessageText;
use smallvec::SmallVec;
use std::alloc::{AllocError, Global};
use std::marker::Model;
use std::mem::replace;

/// The texts of one kind.
type Texts = SmallVec<MessageText, 1>;

/// The messages of an error, by kind and in the order in which they were added.
#[derive(Debug)]
pub struct Messages {
    system_unexpected: Texts,
    unexpected: Texts,
    expected: Texts,
    plain: Texts,
}

// Written out, so that the crates above needn't prove again how each part is dropped.
impl Drop for Messages {
    fn drop(self) {
        let Messages {
            system_unexpected,
            unexpected,
            expected,
            plain,
        } = self;
        drop(system_unexpected);
        drop(unexpected);
        drop(expected);
        drop(plain);
    }
}

impl Model for Messages {
    ghost use Rattle.pg_message.specs.Messages.{Messages as Lists};

    ghost Value = { Lists };

    ghost view = { λ m. record {
      system_unexpected = m.system_unexpected.items;
      unexpected = m.unexpected.items;
      expected = m.expected.items;
      plain = m.plain.items;
    } };
}

impl Messages {
    /// No messages. It takes no memory.
    pub(crate) fn new(alloc: Global) -> Messages
        ensures { result ≡ no_messages }
    {
        Messages {
            system_unexpected: SmallVec::new(alloc),
            unexpected: SmallVec::new(alloc),
            expected: SmallVec::new(alloc),
            plain: SmallVec::new(alloc),
        }
    }

    /// Whether there is no message of any kind. An empty text is a message.
    pub fn is_empty(&self) -> bool
        ensures { result ≡ is_empty self.now }
    {
        self.system_unexpected.is_empty()
            && self.unexpected.is_empty()
            && self.expected.is_empty()
            && self.plain.is_empty()
    }

    /// The texts of one kind, in the order in which they were added.
    pub fn of_kind(&self, kind: MessageKind) -> &[MessageText]
        ensures { result.now ≡ of_kind self.now kind }
    {
        match kind {
            MessageKind::SystemUnexpected => self.system_unexpected.as_slice(),
            MessageKind::Unexpected => self.unexpected.as_slice(),
            MessageKind::Expected => self.expected.as_slice(),
            MessageKind::Plain => self.plain.as_slice(),
        }
    }

    /// Adds a text at the end of its kind, even if it is there already.
    pub(crate) fn push(&mut self, kind: MessageKind, text: String) -> Result<(), AllocError>
        ensures ok { OnOk result (self.new ≡ with_message self.old kind (string_bytes text)) }
        ensures err { OnErr result (self.new ≡ self.old) }
    {
        let text = MessageText::new(text);
        match kind {
            MessageKind::SystemUnexpected => self.system_unexpected.push(text)?,
            MessageKind::Unexpected => self.unexpected.push(text)?,
            MessageKind::Expected => self.expected.push(text)?,
            MessageKind::Plain => self.plain.push(text)?,
        }
        Ok(())
    }

    /// Moves the other messages after those of their kinds, except for texts that are there already.
    pub(crate) fn append(&mut self, other: &mut Messages) -> Result<(), AllocError>
        ensures ok { OnOk result (self.new ≡ with_messages self.old other.old) }
        ensures err { OnErr result (self.new ≡ self.old) }
    {
        make_room(&mut self.system_unexpected, &other.system_unexpected)?;
        make_room(&mut self.unexpected, &other.unexpected)?;
        make_room(&mut self.expected, &other.expected)?;
        make_room(&mut self.plain, &other.plain)?;
        append_reserved(&mut self.system_unexpected, &mut other.system_unexpected);
        append_reserved(&mut self.unexpected, &mut other.unexpected);
        append_reserved(&mut self.expected, &mut other.expected);
        append_reserved(&mut self.plain, &mut other.plain);
        Ok(())
    }

    /// Makes this name all that was expected. It takes no memory.
    pub(crate) fn rename(&mut self, name: String)
        ensures { self.new ≡ record self.old { expected = string_bytes name ∷ [] } }
    {
        let mut expected = SmallVec::new(*self.expected.allocator());
        expected.push_reserved(MessageText::new(name));
        self.expected = expected;
    }
}

/// Makes room for the other texts that aren't there yet.
fn make_room(texts: &mut Texts, others: &Texts) -> Result<(), AllocError>
    ensures items { texts.new.items ≡ texts.old.items }
    ensures ok { OnOk result (HasRoomFor texts.new (missing_count texts.old.items others.now.items)) }
{
    texts.reserve(missing_count(texts.as_slice(), others.as_slice()))
}

/// Moves the other texts that aren't there yet to the end.
fn append_reserved(texts: &mut Texts, others: &mut Texts)
    requires { HasRoomFor texts.old (missing_count texts.old.items others.old.items) }
    ensures { texts.new.items ≡ with_texts texts.old.items others.old.items }
{
    // Most lists are empty, and walking one by value costs more than this test.
    if others.is_empty() {
        return;
    }
    let moved = replace(others, SmallVec::new(*texts.allocator()));
    for text in moved {
        if !has_text(texts.as_slice(), &text) {
            texts.push_reserved(text);
        }
    }
}

fn missing_count(texts: &[MessageText], others: &[MessageText]) -> usize
    ensures { result ≡ missing_count texts.now others.now }
{
    others.iter().filter(|text| !has_text(texts, text)).count()
}

fn has_text(texts: &[MessageText], text: &MessageText) -> bool
    ensures { result ≡ has_text texts.now text.now }
{
    texts.iter().any(|other| other.equals(text))
}
