//! Characters as texts, and texts as characters.

ghost use Rattle.std.specs.Prelude.{◌≡◌, string_bytes, IfOk, true};
ghost use Rattle.std.specs.Str.{chars, all_scalars, encode_utf8_all};

use std::alloc::{AllocError, Global};

/// The characters of a text. They are counted first, so that their memory is asked for once, and a refusal is told.
pub fn characters_of(alloc: Global, text: &str) -> Result<Vec<char>, AllocError>
    ensures value { IfOk result (λ characters. characters.items ≡ chars text.now) }
    ensures scalars { IfOk result (λ characters. all_scalars characters.items ≡ true) }
{
    let mut characters = Vec::with_capacity(alloc, text.chars().count())?;
    for c in text.chars() {
        characters.push(c)?;
    }
    Ok(characters)
}

/// The text with these characters.
pub fn utf8(alloc: Global, characters: &[char]) -> Result<String, AllocError>
    ensures { IfOk result (λ text. string_bytes text ≡ encode_utf8_all characters.now) }
{
    let mut text = String::new(alloc);
    for c in characters {
        text.push(*c)?;
    }
    Ok(text)
}
