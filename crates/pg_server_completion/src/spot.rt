//! What stands around a place of a file.

use pg_file_items::Span;
use pg_file_tokens::{Lexeme, Token, is_word};
use pg_server_names::{Next, Sense, Surroundings, next_of, span_of_token};
use std::alloc::{AllocError, Global};

/// The word inside a `word` or `operators` item that stood last.
#[derive(Clone, Copy, PartialEq, Eq)]
pub(crate) enum Part {
    /// None has stood in this item.
    None,
    Head,
    Rest,
    Gap,
    Reserved,
    Max,
}

/// What stands around a place.
#[derive(Drop)]
pub(crate) struct Spot {
    /// The name that has been begun there, up to the place.
    pub(crate) begun: Span,
    /// What stands around that name.
    pub(crate) surroundings: Surroundings,
    pub(crate) part: Part,
    /// The number of the tokens before that name.
    pub(crate) count: usize,
}

/// What stands around a place; `None` inside a literal, a number or a comment, where no word can be.
pub(crate) fn spot_at(
    alloc: Global,
    text: &[char],
    lexemes: &[Lexeme],
    place: usize,
) -> Result<Option<Spot>, AllocError> {
    let first = begin_of_name(text, place);
    if !is_outside(text, lexemes, first) {
        return Ok(None);
    }
    let spot = spot_before(alloc, lexemes, first, place)?;
    Ok(Some(spot))
}

/// What stands around a place, inside a literal too, where a name begins that ends at another place.
pub(crate) fn spot_before(
    alloc: Global,
    lexemes: &[Lexeme],
    first: usize,
    after: usize,
) -> Result<Spot, AllocError> {
    let begun = Span { first, after };
    let count = count_before(lexemes, first);
    spot_behind(alloc, lexemes, count, begun)
}

/// What stands behind the first tokens of a file.
fn spot_behind(
    alloc: Global,
    lexemes: &[Lexeme],
    count: usize,
    begun: Span,
) -> Result<Spot, AllocError> {
    let mut surroundings = Surroundings::new(alloc);
    let mut part = Part::None;
    let mut rest = lexemes;
    for _ in 0..count {
        if let [first, behind @ ..] = rest {
            let next = next_of(behind);
            part = part_behind(part, &first.token, next, &surroundings);
            surroundings.pass(&first.token, next)?;
            rest = behind;
        }
    }
    Ok(Spot {
        begun,
        surroundings,
        part,
        count,
    })
}

/// The part word that stood last, behind a token. A new item has none. A name that isn't a keyword there leaves it as it was: a class may be named `rest`.
fn part_behind(part: Part, token: &Token, next: Next, surroundings: &Surroundings) -> Part {
    let Token::Name(name) = token else {
        return part;
    };
    if surroundings.item().is_none() {
        Part::None
    } else if matches!(surroundings.sense(name.as_slice(), next), Sense::Keyword) {
        part_named(part, name.as_slice())
    } else {
        part
    }
}

fn part_named(part: Part, name: &[char]) -> Part {
    if is_word("head", name) {
        Part::Head
    } else if is_word("rest", name) {
        Part::Rest
    } else if is_word("gap", name) {
        Part::Gap
    } else if is_word("reserved", name) {
        Part::Reserved
    } else if is_word("max", name) {
        Part::Max
    } else {
        part
    }
}

/// Where the name begins that has been begun before a place; the place itself, where there is none.
fn begin_of_name(text: &[char], place: usize) -> usize {
    let before = text.get(..place).unwrap_or(text);
    let mut first = before.len();
    for c in before.iter().rev() {
        if !c.is_ascii_alphanumeric() && *c != '_' {
            break;
        }
        first = first.saturating_sub(1);
    }
    first
}

/// How many tokens begin before a place.
fn count_before(lexemes: &[Lexeme], place: usize) -> usize {
    lexemes
        .iter()
        .take_while(|lexeme| lexeme.place < place)
        .count()
}

/// Whether a place is in no token and no comment, and a number doesn't begin there.
fn is_outside(text: &[char], lexemes: &[Lexeme], place: usize) -> bool {
    let count = count_before(lexemes, place);
    let before = match lexemes.get(count.saturating_sub(1)) {
        Some(last) if count > 0 => span_of_token(text, last).after,
        Some(_) | None => 0,
    };
    match text.get(before..place) {
        Some(between) => is_blank(between) && !is_digit_at(text, place),
        None => false,
    }
}

fn is_digit_at(text: &[char], place: usize) -> bool {
    match text.get(place) {
        Some(c) => c.is_ascii_digit(),
        None => false,
    }
}

/// Whether these characters, which are blanks, comments and what begins no token, end outside of a comment and of a literal that isn't closed.
fn is_blank(between: &[char]) -> bool {
    let line = match between.iter().rev().position(|c| *c == '\n') {
        Some(count) => between
            .get(between.len().saturating_sub(count)..)
            .unwrap_or(between),
        None => between,
    };
    !line.contains(&'#') && !line.contains(&'"')
}
