//! Copies of characters, and comparing names with words.

ghost use Rattle.std.specs.Prelude.{◌≡◌, IfOk};
ghost use Rattle.std.specs.Str.{bytes_eq};

use pg_text::Characters;
use std::alloc::{AllocError, Global};

/// A copy of the characters in memory of its own.
pub fn copied(alloc: Global, text: &[char]) -> Result<Characters, AllocError>
    ensures { IfOk result (λ copy. copy ≡ text.now) }
{
    Ok(Characters::new(Vec::from_slice(alloc, text)?))
}

/// Whether the name is this word, which is ASCII.
pub fn is_word(word: &str, name: &[char]) -> bool
    ensures { result ≡ bytes_eq word.now name.now }
{
    let mut rest = name;
    for byte in word.as_bytes() {
        match rest {
            [first, after @ ..] if *first == char::from(*byte) => rest = after,
            _ => return false,
        }
    }
    rest.is_empty()
}
