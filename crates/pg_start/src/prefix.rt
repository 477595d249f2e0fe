//! The beginning of a text: a character of a class, a run, a word.
//!
//! Keys are examined as texts are, so both `matching.rt` and `pairs.rt` call these. None takes memory.
ghost use Rattle.std.specs.Prelude.{◌≡◌, ◌↔◌, length, IsTrue};
ghost use Rattle.pg_start.specs.Prefixes.{begins_in, IsPrefix, run, word_prefix};

use pg_class::Class;

/// Whether the text begins with a character of the class.
pub fn begins_in(text: &[char], class: &Class) -> bool
    ensures { result ≡ begins_in class.now text.now }
{
    match text {
        [] => false,
        [first, ..] => class.has(*first),
    }
}

/// Whether the text begins with another, perhaps the whole of it.
pub fn begins_with(text: &[char], prefix: &[char]) -> bool
    ensures { IsTrue result ↔ IsPrefix prefix.now text.now }
{
    text.starts_with(prefix)
}

/// The first character of the text and all characters of the class that follow it.
pub fn word_prefix<'a>(text: &'a [char], rest: &Class) -> &'a [char]
    ensures { result.now ≡ word_prefix rest.now text.now }
{
    match text {
        [] => text,
        [_, ..] => &text[..1 + run_length(&text[1..], rest)],
    }
}

/// The length of the run of the class at the beginning of the text.
fn run_length(text: &[char], class: &Class) -> usize
    ensures { result ≡ length (run class.now text.now) }
{
    text.iter().take_while(|c| class.has(**c)).count()
}
