//! The words of a text, and which of them it defines.
//!
//! They are found by their characters alone, since no tokens are read after a bad one.

use pg_file_tokens::is_word;
use std::alloc::{AllocError, Global};

/// The place of a word: its first character and its end.
#[derive(Clone, Copy)]
pub(crate) struct Word {
    pub(crate) first: usize,
    pub(crate) after: usize,
}

impl Word {
    /// Its characters.
    pub(crate) fn of<'t>(&self, text: &'t [char]) -> &'t [char] {
        text.get(self.first..self.after).unwrap_or(&[])
    }
}

/// A text from a place on; nothing after its end. (A call of `skip` would go through all the characters that it skips.)
pub(crate) fn rest_of(text: &[char], place: usize) -> &[char] {
    text.get(place..).unwrap_or(&[])
}

/// Whether a character may stand in a name.
fn is_in_name(c: char) -> bool {
    c.is_ascii_alphanumeric() || c == '_'
}

/// The word that begins at a place, or an empty one if none does.
pub(crate) fn word_at(text: &[char], place: usize) -> Word {
    let length = rest_of(text, place)
        .iter()
        .take_while(|c| is_in_name(**c))
        .count();
    Word {
        first: place,
        after: place.saturating_add(length),
    }
}

/// The words of a text, in order.
pub(crate) fn words(alloc: Global, text: &[char]) -> Result<Vec<Word>, AllocError> {
    let mut words = Vec::new(alloc);
    let mut next: usize = 0;
    for place in 0..text.len() {
        if place >= next {
            let word = word_at(text, place);
            if word.first < word.after {
                words.push(word)?;
            }
            next = word.after;
        }
    }
    Ok(words)
}

/// The words that a text seems to define: a `=` follows, or `word` comes before, or an item begins with the word.
pub(crate) fn definitions(alloc: Global, text: &[char]) -> Result<Vec<Word>, AllocError> {
    let mut defined = Vec::new(alloc);
    let mut is_behind_word = false;
    for word in words(alloc, text)?.iter() {
        if is_behind_word || is_before_equals(text, word.after) || begins_item(text, word.first) {
            defined.push(*word)?;
        }
        is_behind_word = is_word("word", word.of(text));
    }
    Ok(defined)
}

/// Whether the first character that isn't blank, from a place on, is `=`.
fn is_before_equals(text: &[char], place: usize) -> bool {
    rest_of(text, place)
        .iter()
        .find(|c| !c.is_whitespace())
        .copied()
        == Some('=')
}

/// Whether a text has a word followed by a `=`.
pub(crate) fn has_equals(alloc: Global, text: &[char]) -> Result<bool, AllocError> {
    let words = words(alloc, text)?;
    Ok(words.iter().any(|word| is_before_equals(text, word.after)))
}

/// Whether only blanks stand between a place and the semicolon before it, or the beginning.
fn begins_item(text: &[char], place: usize) -> bool {
    let last = text
        .get(..place)
        .unwrap_or(&[])
        .iter()
        .rfind(|c| !c.is_whitespace())
        .copied();
    last.is_none() || last == Some(';')
}

/// Whether a text seems to define a name.
pub(crate) fn is_among(alloc: Global, text: &[char], name: &[char]) -> Result<bool, AllocError> {
    let defined = definitions(alloc, text)?;
    Ok(defined.iter().any(|one| *one.of(text) == *name))
}
