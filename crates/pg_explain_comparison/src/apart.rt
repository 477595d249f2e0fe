//! Where the languages of two grammars differ, as far as short texts show it.
//!
//! All texts of up to five characters over a few letters are tried, and each grammar is asked through the ends of its nodes. Texts with a common ending share
//! the ends found there: the characters are set from the last place to the first.

use crate::ends::{Ends, has_operators};
use crate::letters::letters_of;
use pg_grammar_value::Grammar;
use std::alloc::{AllocError, Global};

/// The most characters of a text.
const LONGEST: usize = 5;
/// The most entries of the rows that are worked out for one grammar: one for each node and text.
const MOST_ROWS: usize = 200_000;

/// The shortest texts found that only one of the two grammars derives.
#[derive(Drop)]
pub(crate) struct Apart {
    /// One that only the first grammar derives.
    pub(crate) lost: Option<Vec<char>>,
    /// One that only the second derives.
    pub(crate) gained: Option<Vec<char>>,
}

/// Two grammars, and what was found by comparing them.
#[derive(Drop)]
struct Pair<'g> {
    before: Ends<'g>,
    changed: Ends<'g>,
    found: Apart,
}

/// Short texts that only one of two grammars derives; none if either has expressions or declarations (ours).
pub(crate) fn find_apart(
    alloc: Global,
    before: &Grammar,
    changed: &Grammar,
) -> Result<Apart, AllocError> {
    let found = Apart {
        lost: None,
        gained: None,
    };
    if has_operators(before) || has_operators(changed) {
        return Ok(found);
    }
    let letters = letters_of(alloc, before)?;
    let nodes = before.nodes().len().max(changed.nodes().len());
    let length = longest(letters.len(), nodes);
    let mut pair = Pair {
        before: Ends::of(alloc, before, blank(alloc, length)?)?,
        changed: Ends::of(alloc, changed, blank(alloc, length)?)?,
        found,
    };
    pair.compare_all(alloc, &letters, length)?;
    let Pair { found, .. } = pair;
    Ok(found)
}

/// The most characters of the texts: as many as keep the number of texts times the number of nodes within the limit.
fn longest(letters: usize, nodes: usize) -> usize {
    let mut length = LONGEST;
    for _ in 0..LONGEST {
        if count_of(letters, length).saturating_mul(nodes) > MOST_ROWS {
            length = length.saturating_sub(1);
        }
    }
    length
}

/// A text of this many characters.
fn blank(alloc: Global, length: usize) -> Result<Vec<char>, AllocError> {
    vec![in alloc; ' '; length]
}

/// How many texts of this length there are over this many letters.
fn count_of(letters: usize, length: usize) -> usize {
    let mut count: usize = 1;
    for _ in 0..length {
        count = count.saturating_mul(letters);
    }
    count
}

/// The letter to set at a place for the text with this number. It is `None` if the text before had the same letter there. The first place changes with every
/// number.
fn letter_at(letters: &[char], number: usize, place: usize) -> Option<char> {
    if letters.is_empty() {
        return None;
    }
    let mut rest = number;
    for _ in 0..place {
        if rest % letters.len() != 0 {
            return None;
        }
        rest = rest / letters.len();
    }
    letters.get(rest % letters.len()).copied()
}

impl<'g> Pair<'g> {
    /// Compares the grammars by the empty text and by all texts of up to `length` of these letters. Stops where an answer isn't known.
    fn compare_all(
        &mut self,
        alloc: Global,
        letters: &[char],
        length: usize,
    ) -> Result<(), AllocError> {
        if !self.compare(alloc, length, None)? {
            return Ok(());
        }
        for number in 0..count_of(letters.len(), length) {
            if !self.compare_next(alloc, letters, length, number)? {
                return Ok(());
            }
        }
        Ok(())
    }

    /// Compares the grammars by the text with this number and by those of its endings that the text before doesn't share. Answers whether both grammars'
    /// answers are known.
    fn compare_next(
        &mut self,
        alloc: Global,
        letters: &[char],
        length: usize,
        number: usize,
    ) -> Result<bool, AllocError> {
        for place in (0..length).rev() {
            if let Some(letter) = letter_at(letters, number, place)
                && !self.compare(alloc, place, Some(letter))?
            {
                return Ok(false);
            }
        }
        Ok(true)
    }

    /// Compares the grammars by the text from this place on. Answers whether both grammars' answers are known.
    fn compare(
        &mut self,
        alloc: Global,
        place: usize,
        letter: Option<char>,
    ) -> Result<bool, AllocError> {
        let before = self.before.rest_with(place, letter);
        let changed = self.changed.rest_with(place, letter);
        match (before, changed) {
            (Some(had), Some(has)) => {
                self.note_apart(alloc, place, had, has)?;
                Ok(true)
            }
            (_, _) => Ok(false),
        }
    }

    /// Records the text from a place on if only one of the grammars derives it.
    fn note_apart(
        &mut self,
        alloc: Global,
        place: usize,
        had: bool,
        has: bool,
    ) -> Result<(), AllocError> {
        let text = self.before.rest(place);
        if had && !has {
            note(alloc, text, &mut self.found.lost)
        } else if has && !had {
            note(alloc, text, &mut self.found.gained)
        } else {
            Ok(())
        }
    }
}

/// Keeps a text, unless one as short or shorter is kept.
fn note(alloc: Global, text: &[char], noted: &mut Option<Vec<char>>) -> Result<(), AllocError> {
    let is_shorter = match noted {
        Some(other) => text.len() < other.len(),
        None => true,
    };
    if is_shorter {
        *noted = Some(Vec::from_slice(alloc, text)?);
    }
    Ok(())
}
