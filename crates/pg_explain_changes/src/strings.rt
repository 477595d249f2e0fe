//! Strings with a common beginning, and what belongs to a string.
//!
//! A string is recognized by its first character, or by all of its characters if it stands in a `try`. The `try` helps where another string, or a word,
//! begins with the same character.

use pg_explain_drafts::{Forms, Kind, Met};
use std::alloc::{AllocError, Global};

/// The most forms of all sides together.
const FORMS: usize = 1_000;

/// The strings that may begin like a string or a word of another side.
pub(crate) fn met_strings(
    alloc: Global,
    forms: &Forms,
    sides: &[Vec<usize>],
) -> Result<Vec<usize>, AllocError> {
    let mut met = Met::new(alloc, forms.count())?;
    if form_count(sides) <= FORMS {
        for (number, side) in sides.iter().enumerate() {
            meet_strings(forms, sides, number, side, &mut met)?;
        }
    }
    Ok(met.into_forms())
}

/// The number of forms of all sides together.
fn form_count(sides: &[Vec<usize>]) -> usize {
    let mut count: usize = 0;
    for side in sides {
        count = count.saturating_add(side.len());
    }
    count
}

/// Meets the strings of the side with this number that may begin like a string or a word of another side.
fn meet_strings(
    forms: &Forms,
    sides: &[Vec<usize>],
    number: usize,
    side: &[usize],
    met: &mut Met,
) -> Result<(), AllocError> {
    for form in side {
        if let Some([first, ..]) = forms.characters(*form, Kind::String)
            && is_met(forms, sides, number, *first)
        {
            met.meet(*form)?;
        }
    }
    Ok(())
}

/// Whether a form of any side but the one with this number may begin with this character.
fn is_met(forms: &Forms, sides: &[Vec<usize>], number: usize, first: char) -> bool {
    for (other, side) in sides.iter().enumerate() {
        if other != number && has_like(forms, side, first) {
            return true;
        }
    }
    false
}

/// Whether one of these forms is a word, or a string with this first character.
fn has_like(forms: &Forms, side: &[usize], first: char) -> bool {
    for form in side {
        if forms.is(*form, Kind::Word) {
            return true;
        }
        if let Some([other, ..]) = forms.characters(*form, Kind::String)
            && *other == first
        {
            return true;
        }
    }
    false
}

/// A string and what belongs to it.
#[derive(Clone, Copy)]
pub(crate) struct Lexeme {
    /// The string, or the `seq` of the string and a `notFollowedBy`.
    pub(crate) whole: usize,
    /// The `notFollowedBy`, if there is one.
    pub(crate) guard: Option<usize>,
    /// Whether exactly this stands in a `try`.
    pub(crate) is_tried: bool,
}

/// What belongs to a string.
pub(crate) fn lexeme_of(forms: &Forms, form: usize) -> Lexeme {
    let alone = Lexeme {
        whole: form,
        guard: None,
        is_tried: false,
    };
    let Some(parent) = forms.parent(form) else {
        return alone;
    };
    match (forms.kind(parent), forms.parts(parent)) {
        (Some(Kind::Try), [_]) => Lexeme {
            is_tried: true,
            ..alone
        },
        (Some(Kind::Try), [first, guard]) if is_guarded(forms, form, *first, *guard) => Lexeme {
            whole: form,
            guard: Some(*guard),
            is_tried: true,
        },
        (Some(Kind::Seq), [first, guard]) if is_guarded(forms, form, *first, *guard) => Lexeme {
            whole: parent,
            guard: Some(*guard),
            is_tried: is_only_tried(forms, parent),
        },
        (_, _) => alone,
    }
}

/// Whether a form is the first of two, and the second is a `notFollowedBy`.
fn is_guarded(forms: &Forms, form: usize, first: usize, guard: usize) -> bool {
    first == form && forms.is(guard, Kind::NotFollowedBy)
}

/// Whether a `try` stands around exactly this form.
fn is_only_tried(forms: &Forms, form: usize) -> bool {
    match forms.parent(form) {
        Some(parent) => forms.is(parent, Kind::Try) && forms.parts(parent).len() == 1,
        None => false,
    }
}

/// The characters that continue this string in longer strings.
pub(crate) fn next_characters(
    alloc: Global,
    forms: &Forms,
    form: usize,
    strings: &[usize],
) -> Result<Vec<char>, AllocError> {
    let mut next = Vec::new(alloc);
    for other in strings {
        if let Some(c) = next_character(forms, form, *other)
            && !next.contains(&c)
        {
            next.push(c)?;
        }
    }
    Ok(next)
}

/// The character after a string in a longer string that begins with it.
fn next_character(forms: &Forms, form: usize, other: usize) -> Option<char> {
    let text = forms.characters(form, Kind::String)?;
    let mut rest = forms.characters(other, Kind::String)?;
    for c in text {
        match rest {
            [first, after @ ..] if *first == *c => rest = after,
            _ => return None,
        }
    }
    rest.first().copied()
}
