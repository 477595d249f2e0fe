//! Looking up names in a list.
//!
//! Names are compared character by character, from the first name to the last. A maker relies on it for F4, F5 and F6,
//! and for the numbers of the rules and word items that bodies name.

ghost use Rattle.std.specs.Prelude.{◌≡◌, position};
ghost use Rattle.std.specs.Str.{bytes_eq};
ghost use Rattle.pg_grammar_form.specs.Names.{has_name, place_of_name};
ghost use Rattle.pg_grammar_form.specs.WordItems.{has_word};

use pg_grammar_form::WordItem;
use pg_text::Characters;

/// Whether the name is among these.
pub fn has_name(names: &[Characters], name: &[char]) -> bool
    ensures { result ≡ has_name names.now name.now }
{
    names.iter().any(|other| other.as_slice() == name)
}

/// The index of the first occurrence of the name, if it is among these.
pub fn place_of_name(names: &[Characters], name: &[char]) -> Option<usize>
    ensures { result ≡ place_of_name names.now name.now }
{
    names.iter().position(|other| other.as_slice() == name)
}

/// Whether a word item has this name.
pub fn has_word(words: &[WordItem], name: &[char]) -> bool
    ensures { result ≡ has_word words.now name.now }
{
    words.iter().any(|word| word.name.as_slice() == name)
}

/// The index of the first word item with this name, if there is one.
pub fn place_of_word(words: &[WordItem], name: &[char]) -> Option<usize>
    ensures { result ≡ position (λ word. bytes_eq word.name name.now) words.now }
{
    words.iter().position(|word| word.name.as_slice() == name)
}
