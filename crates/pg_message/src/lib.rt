//! The errors of parsers: places, messages, and their printed text.
//!
//! A [`ParseError`] has a place in the text, its position, and [`Messages`], which are texts by kind. Errors are merged
//! as parsers answer one after another, and [`render`] prints one as Text.Parsec would. Code that makes an error owes
//! that the position is the place's, and writes the texts with their quotes: nothing here reads the parsed text.
#![tactic(auto)]

mod answer;
mod error;
mod kind;
mod laws;
mod message_text;
mod messages;
mod printed;
#[cfg(test)]
mod tests;

pub use answer::AnswerKind;
pub use error::ParseError;
pub use kind::MessageKind;
pub use laws::{
    errors_without_messages_change_nothing, merging_is_associative, repeats_are_not_printed,
};
pub use message_text::MessageText;
pub use messages::Messages;
pub use printed::render;
