//! The messages at a place of an expression where operators aren't read, or may not stand.
//!
//! Each function gives at most two messages; the caller says whether a row has operators of a role.

ghost use Rattle.std.specs.Prelude.{◌≡◌, ◌++◌, List, OnOk, IfOk, length};
ghost use Rattle.std.specs.Option.{option_map};
ghost use Rattle.pg_grammar_form.specs.Operators.{Operator};
ghost use Rattle.pg_message_tape.specs.Messages.{side_words};
ghost use Rattle.pg_message_tape.specs.TapeErrors.{tape_error, kept_at, merged_tape_error, merged_messages};
ghost use Rattle.pg_language_operators.specs.RowRoles.{is_any};
ghost use Rattle.pg_language_operators.specs.Standings.{read_of};
ghost use Rattle.pg_machine_lists.specs.TapeLevels.{no_affix_said, unread_said, ambiguous_said, no_infix_said};
ghost use Rattle.pg_machine_lists.specs.ViewLevels.{said_of, messages_in, seen_if, operator_if};

use pg_language_operators::Read;
use pg_message_tape::{Message, MessageTape, Sided, TapeError};
use pg_text::Text;
use std::alloc::AllocError;

/// Messages at a place.
#[derive(Clone, Copy)]
pub struct Said<'a> {
    pub place: usize,
    pub first: Option<Message<'a>>,
    pub second: Option<Message<'a>>,
}

/// Where no prefix or postfix of a row is read: something without a name was expected, and if the row has any, what stands there
/// is named.
#[tactic(auto, using(crate::proofs::SaidRead::no_affix_by))]
pub(crate) fn no_affix_said<'a>(text: &Text, any: bool, place: usize) -> Said<'a>
    ensures { (operators : List Operator) → any ≡ is_any operators → said_of result ≡ no_affix_said text.now operators place }
{
    Said {
        place,
        first: seen(text, any, place),
        second: Some(Message::WantedNameless),
    }
}

/// Where none of a row's operators of a role is read: what stands there is named, if the row has any.
#[tactic(auto, using(crate::proofs::SaidRead::unread_by))]
pub(crate) fn unread_said<'a>(text: &Text, any: bool, place: usize) -> Said<'a>
    ensures { (operators : List Operator) → any ≡ is_any operators → said_of result ≡ unread_said text.now operators place }
{
    Said {
        place,
        first: seen(text, any, place),
        second: None,
    }
}

/// Where an operator of the row with this associativity is read: its use would be ambiguous.
pub(crate) fn ambiguous_said<'a>(
    side: Sided,
    text: &Text,
    any: bool,
    place: usize,
    read: Option<Read<'_, 'a>>,
) -> Said<'a>
    ensures { (operators : List Operator) → any ≡ is_any operators →
        said_of result ≡ ambiguous_said (side_words side) text.now operators place (option_map read_of read.entry) }
{
    match read {
        Some(read) => Said {
            place: read.end,
            first: Some(Message::Ambiguous(side)),
            second: None,
        },
        None => unread_said(text, any, place),
    }
}

/// Where no infix operator of a row follows its first operand: one was expected, if the row has any.
#[tactic(auto, using(crate::proofs::SaidRead::no_infix_by))]
pub(crate) fn no_infix_said<'a>(text: &Text, any: bool, place: usize) -> Said<'a>
    ensures { (operators : List Operator) → any ≡ is_any operators → said_of result ≡ no_infix_said text.now operators place }
{
    Said {
        place,
        first: seen(text, any, place),
        second: operator_wanted(any),
    }
}

/// The name of what stands at the place, if there is anything to name it.
fn seen<'a>(text: &Text, any: bool, place: usize) -> Option<Message<'a>>
    ensures { messages_in result ≡ seen_if any text.now place }
{
    if any {
        Some(Message::Stopped(text.char_at(place)))
    } else {
        None
    }
}

/// The message that an operator was expected, if there is any.
fn operator_wanted<'a>(any: bool) -> Option<Message<'a>>
    ensures { messages_in result ≡ operator_if any }
{
    if any {
        Some(Message::WantedOperator)
    } else {
        None
    }
}

/// Pushes the messages.
pub(crate) fn push_said<'a>(
    messages: &mut MessageTape<'a>,
    said: Said<'a>,
) -> Result<(), AllocError>
    ensures { OnOk result (messages.new ≡ messages.old ++ (said_of said.entry).messages) }
{
    push_if(messages, said.first)?;
    push_if(messages, said.second)
}

/// Pushes a message, if there is one.
fn push_if<'a>(
    messages: &mut MessageTape<'a>,
    message: Option<Message<'a>>,
) -> Result<(), AllocError>
    ensures { OnOk result (messages.new ≡ messages.old ++ messages_in message.entry) }
{
    match message {
        Some(message) => messages.push(message),
        None => Ok(()),
    }
}

/// Merges further messages with the error of the last answer.
pub(crate) fn merge_said<'a>(
    messages: &mut MessageTape<'a>,
    said: Said<'a>,
    error: TapeError,
) -> Result<TapeError, AllocError>
    ensures error { IfOk result (λ merged. merged ≡ merged_tape_error (kept_at (length messages.old) error)
        (tape_error said.entry.place (length messages.old)) (messages.old ++ (said_of said.entry).messages)) }
    ensures messages { OnOk result (messages.new ≡ merged_messages (kept_at (length messages.old) error)
        (tape_error said.entry.place (length messages.old)) (messages.old ++ (said_of said.entry).messages)) }
{
    let kept = messages.kept(error);
    let last = TapeError {
        place: said.place,
        from: messages.len(),
    };
    push_said(messages, said)?;
    messages.merge(kept, last)
}
