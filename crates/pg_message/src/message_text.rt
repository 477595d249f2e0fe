//! The text of one message.
//!
//! Contracts see it as its bytes in UTF-8, since it is only compared and printed. It is a type of its own so that
//! definitions can speak of lists of texts.

ghost use Rattle.std.specs.Prelude.{◌≡◌, string_bytes};
ghost use Rattle.std.specs.Str.{bytes_eq};

use std::alloc::Global;
use std::default::MadeWith;
use std::marker::Model;

/// The text of a message, in memory of its own.
#[derive(Debug, Drop)]
pub struct MessageText {
    text: String,
}

impl Model for MessageText {
    ghost use Rattle.std.specs.Prelude.{ℕ, List, string_bytes};

    ghost Value = { List ℕ };

    ghost view = { λ message. string_bytes message.text };
}

impl MessageText {
    /// The message with this text. It takes no memory.
    pub(crate) fn new(text: String) -> MessageText
        ensures { result ≡ string_bytes text }
    {
        MessageText { text }
    }

    /// The text.
    pub fn as_str(&self) -> &str
        ensures { result.now ≡ self.now }
    {
        self.text.as_str()
    }

    /// Whether the other text is equal.
    pub(crate) fn equals(&self, other: &MessageText) -> bool
        ensures { result ≡ bytes_eq self.now other.now }
    {
        self.as_str() == other.as_str()
    }
}

// The unused slots of a `SmallVec` hold this.
impl MadeWith<Global> for MessageText {
    fn made_with(alloc: Global) -> MessageText {
        MessageText {
            text: String::new(alloc),
        }
    }
}
