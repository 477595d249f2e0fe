//! Errors with their positions: the last answer's, and the error of a text that must end.

ghost use Rattle.std.specs.Prelude.{◌≡◌, drop, IfOk};
ghost use Rattle.pg_text.specs.Position.{position_of};
ghost use Rattle.pg_language.specs.Errors.{without_position};
ghost use Rattle.pg_message_tape.specs.Messages.{error_of, end_error};

use crate::machine::Machine;
use pg_message::ParseError;
use pg_message_tape::{Message, TapeError, told};
use pg_text::Text;
use std::alloc::{AllocError, Global};

impl Machine<'_> {
    /// The error of the last answer, with its texts and its position.
    pub fn error(
        &self,
        alloc: Global,
        text: &Text,
        error: TapeError,
    ) -> Result<ParseError, AllocError>
        ensures error { IfOk result (λ e. without_position e ≡ error_of error.place (drop error.from self.now.lists.messages)) }
        ensures position { IfOk result (λ e. e.position ≡ position_of text.now error.place) }
    {
        let position = text.position(error.place.min(text.len()));
        self.lists.messages.error(alloc, error, position)
    }
}

/// The error at a place where the text has to end, whether it ends there or not.
pub fn error_at_end(alloc: Global, text: &Text, place: usize) -> Result<ParseError, AllocError>
    ensures error { IfOk result (λ e. without_position e ≡ end_error text.now place) }
    ensures position { IfOk result (λ e. e.position ≡ position_of text.now place) }
{
    let position = text.position(place.min(text.len()));
    let seen = if place == text.len() {
        Message::Stopped(None)
    } else {
        Message::Refused(text.char_at(place))
    };
    told(alloc, place, position, &[seen, Message::WantedEnd])
}
