//! Texts to be parsed.
//!
//! A text is decoded from UTF-8 once; callers see it as the list of its characters. It has at most `LIMIT` of them,
//! each a Unicode scalar value, and nothing changes it. Code that reads a text names its characters by their places,
//! and relies on the limit when it calculates with places.
ghost use Rattle.std.specs.Prelude.{◌≡◌, ◌==◌, ◌<◌, ◌≤◌, ◌↔◌, length, slice_get, IfOk, IsErrOf, true};
ghost use Rattle.std.specs.Str.{chars, IsUtf8, all_scalars};

use crate::encoded::characters_of;
use crate::position::{Pos, position_in};
use std::alloc::Global;
use std::marker::Model;
use thiserror::Error;

/// The most characters that a text may have.
pub const LIMIT: usize = 1_048_576;

/// Why bytes aren't a text.
#[derive(Debug, Drop, Error)]
pub enum TextFault {
    /// The bytes aren't UTF-8, however many there are.
    #[error("P1 not UTF-8")]
    NotUtf8,
    /// The bytes are UTF-8, but have more than `LIMIT` characters.
    #[error("P2 text too long")]
    TooLong,
    /// The bytes are a text, but there was no memory for it.
    #[error("out of memory")]
    Memory,
}

/// A text to be parsed, in memory of its own.
#[derive(Debug)]
pub struct Text {
    characters: Vec<char>,
}

// Written out, so that the crates above needn't prove again how each part is dropped.
impl Drop for Text {
    fn drop(self) {
        let Text { characters } = self;
        drop(characters);
    }
}

impl Model for Text {
    ghost use Rattle.std.specs.Prelude.{◌≡◌, ◌≤◌, List, ℕ, length, true};
    ghost use Rattle.std.specs.Str.{all_scalars};
    ghost use Rattle.pg_text.specs.declared.text.TheConstants.{LIMIT};

    ghost Value = { List ℕ };

    ghost view = { λ t. t.characters.items };

    ghost invariant = { λ t. (length t.characters.items ≤ LIMIT) × (all_scalars t.characters.items ≡ true) };
}

impl Text {
    ghost use Rattle.pg_text.specs.Position.{position_of};

    /// The text that the bytes spell. It checks first that they are UTF-8, then the limit, and only then asks for
    /// memory. A byte order mark is a character like any other.
    pub fn from_bytes(alloc: Global, bytes: &[u8]) -> Result<Text, TextFault>
        ensures ok { IfOk result (λ t. IsUtf8 bytes.now × (t ≡ chars bytes.now)) }
        ensures scalars { IfOk result (λ t. all_scalars t ≡ true) }
        ensures not_utf8 { IsErrOf result TextFault.NotUtf8 ↔ ¬ (IsUtf8 bytes.now) }
        ensures too_long { IsErrOf result TextFault.TooLong ↔
            (IsUtf8 bytes.now × (LIMIT < length (chars bytes.now))) }
    {
        let Ok(text) = std::str::from_utf8(bytes) else {
            return Err(TextFault::NotUtf8);
        };
        if count_of(text) > LIMIT {
            return Err(TextFault::TooLong);
        }
        let characters = characters_of(alloc, text).map_err(|_| TextFault::Memory)?;
        Ok(Text { characters })
    }

    /// The number of its characters.
    pub fn len(&self) -> usize
        ensures count { result ≡ length self.now }
        ensures limit { length self.now ≤ LIMIT }
    {
        self.characters.len()
    }

    /// Whether it has no character.
    pub fn is_empty(&self) -> bool
        ensures { result ≡ (length self.now == 0) }
    {
        self.characters.is_empty()
    }

    /// The character at a place, or `None` at the end.
    pub fn char_at(&self, place: usize) -> Option<char>
        ensures { result ≡ slice_get self.now place }
    {
        self.characters.get(place).copied()
    }

    /// All its characters, borrowed.
    pub fn characters(&self) -> &[char]
        ensures same { result.now ≡ self.now }
        ensures limit { length self.now ≤ LIMIT }
        ensures scalars { all_scalars self.now ≡ true }
    {
        self.characters.as_slice()
    }

    /// The line and column of a place, by the rule of `position_in`.
    pub fn position(&self, place: usize) -> Pos
        requires { place ≤ length self.now }
        ensures { result ≡ position_of self.now place }
    {
        position_in(self.characters(), place)
    }
}

fn count_of(text: &str) -> usize
    ensures { result ≡ length (chars text.now) }
{
    text.chars().count()
}
