//! Errors with their texts, each text once.

ghost use Rattle.std.specs.Prelude.{◌≡◌, map, IfOk, OnOk};
ghost use Rattle.pg_message.specs.Messages.{has_text, of_kind};
ghost use Rattle.pg_language.specs.Errors.{without_position};
ghost use Rattle.pg_message_tape.specs.Messages.{tape_message_of, error_of, message_kind, message_text, with_message_once, with_messages_once};
ghost use Rattle.pg_message_tape.specs.Repeats.{said, repeated};

use crate::message::Message;
use crate::repeated::Repeated;
use pg_message::{MessageKind, ParseError};
use pg_text::Pos;
use std::alloc::{AllocError, Global};

/// The error at a place with the texts of these entries, each once, however often it is repeated.
pub(crate) fn told_once(
    alloc: Global,
    place: usize,
    position: Pos,
    entries: &[Repeated<'_>],
) -> Result<ParseError, AllocError>
    ensures error { IfOk result (λ e. without_position e ≡ error_of place (said entries.now)) }
    ensures position { IfOk result (λ e. e.position ≡ position) }
{
    let mut error = ParseError::new(alloc, place, position);
    say_each(alloc, &mut error, entries)?;
    Ok(error)
}

/// Adds the messages of these entries that aren't there yet.
#[tactic(auto, using(crate::proofs::Repeats::entries_once))]
fn say_each(
    alloc: Global,
    error: &mut ParseError,
    entries: &[Repeated<'_>],
) -> Result<(), AllocError>
    ensures { OnOk result (error.new ≡
        record error.old { messages = with_messages_once error.old.messages (said entries.now) }) }
{
    for entry in entries {
        say_entry(alloc, error, entry)?;
    }
    Ok(())
}

/// Adds the messages of an entry that aren't there yet. An entry has at most two different ones.
#[tactic(auto, using(crate::proofs::Repeats::first_once, crate::proofs::Repeats::both_once))]
fn say_entry(alloc: Global, error: &mut ParseError, entry: &Repeated<'_>) -> Result<(), AllocError>
    ensures { OnOk result (error.new ≡
        record error.old { messages = with_messages_once error.old.messages (repeated entry.now) }) }
{
    say(alloc, error, &entry.first())?;
    if entry.more == 0 {
        return Ok(());
    }
    say(alloc, error, &entry.second())
}

/// The error at a place with the texts of these messages, each once.
pub fn told(
    alloc: Global,
    place: usize,
    position: Pos,
    messages: &[Message<'_>],
) -> Result<ParseError, AllocError>
    ensures error { IfOk result (λ e. without_position e ≡ error_of place (map tape_message_of messages.now)) }
    ensures position { IfOk result (λ e. e.position ≡ position) }
{
    let mut error = ParseError::new(alloc, place, position);
    say_all(alloc, &mut error, messages)?;
    Ok(error)
}

/// Adds the messages that aren't there yet.
fn say_all(
    alloc: Global,
    error: &mut ParseError,
    messages: &[Message<'_>],
) -> Result<(), AllocError>
    ensures { OnOk result (error.new ≡
        record error.old { messages = with_messages_once error.old.messages (map tape_message_of messages.now) }) }
{
    for message in messages {
        say(alloc, error, message)?;
    }
    Ok(())
}

/// Adds a message, unless it is there already.
fn say(alloc: Global, error: &mut ParseError, message: &Message<'_>) -> Result<(), AllocError>
    ensures { OnOk result (error.new ≡
        record error.old { messages = with_message_once error.old.messages (message_kind message.now) (message_text message.now) }) }
{
    let text = message.text(alloc)?;
    if !has_message(error, message.kind(), text.as_str()) {
        error.add(message.kind(), text)?;
    }
    Ok(())
}

/// Whether the error has this text among its messages of this kind.
fn has_message(error: &ParseError, kind: MessageKind, text: &str) -> bool
    ensures { result ≡ has_text (of_kind error.now.messages kind) text.now }
{
    error
        .messages
        .of_kind(kind)
        .iter()
        .any(|message| message.as_str() == text)
}
