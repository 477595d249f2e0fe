//! What can be written at a place: words of the language and names of the file.

use crate::lines::{
    BUILDERS, END, FORMS, ITEMS, Line, PARTS, PREDICATES, ROLES, Row, form_line, line_of,
};
use crate::spot::spot_at;
use crate::wishes::{Wish, wish_at};
use pg_file_items::{Span, form_word};
use pg_file_tokens::Lexeme;
use pg_server_names::{NameKind, Occurrence, Sense, characters_in, names, tokens};
use pg_text::characters_of;
use std::alloc::{AllocError, Global};

/// What a word is.
#[derive(Clone, Copy, Debug, PartialEq, Eq)]
pub enum WordKind {
    /// It begins an item.
    Item,
    Form,
    Predicate,
    Builder,
    /// It stands inside an item, or is `not`.
    Part,
    /// The role of an operator.
    Role,
}

/// One thing that can be written.
#[derive(Clone, Copy)]
pub enum Offer<'t> {
    Word(WordKind, Line),
    /// The name that an item of the file defines.
    Name(NameKind, &'t [char]),
}

/// What can be written at a place, and the characters that it replaces: what has been begun there.
#[derive(Drop)]
pub struct Completion<'t> {
    pub replaced: Span,
    pub offers: Vec<Offer<'t>>,
}

/// What stands in a file, and what has been begun at a place.
#[derive(Clone, Copy)]
struct Begun<'t, 'n> {
    text: &'t [char],
    names: &'n [Occurrence],
    span: Span,
    /// The characters of the span.
    characters: &'t [char],
}

/// What can be written at a place: only what begins as the name that has been begun there, words first, then names in the order of the file (ours). Nothing is
/// inside a literal or a comment, and where a name is defined. Of the classes those are named that are defined above. Fails where memory runs out.
pub fn completion_at(
    alloc: Global,
    text: &[char],
    place: usize,
) -> Result<Completion<'_>, AllocError> {
    let lexemes = tokens(alloc, text)?;
    let names = names(alloc, lexemes.as_slice())?;
    let (span, wish) = wished(alloc, text, lexemes.as_slice(), place)?;
    let begun = Begun {
        text,
        names: names.as_slice(),
        span,
        characters: characters_in(text, span),
    };
    let offers = offers(alloc, &begun, wish)?;
    Ok(Completion {
        replaced: span,
        offers,
    })
}

/// The name that has been begun at a place, and what is wanted there.
fn wished(
    alloc: Global,
    text: &[char],
    lexemes: &[Lexeme],
    place: usize,
) -> Result<(Span, Wish), AllocError> {
    match spot_at(alloc, text, lexemes, place)? {
        Some(spot) => Ok((spot.begun, wish_at(&spot, lexemes))),
        None => {
            let nothing = Span {
                first: place,
                after: place,
            };
            Ok((nothing, Wish::Nothing))
        }
    }
}

fn offers<'t>(
    alloc: Global,
    begun: &Begun<'t, '_>,
    wish: Wish,
) -> Result<Vec<Offer<'t>>, AllocError> {
    let mut offers = Vec::new(alloc);
    match wish {
        Wish::Item => push_rows(&mut offers, begun, WordKind::Item, &ITEMS)?,
        Wish::Role => push_rows(&mut offers, begun, WordKind::Role, &ROLES)?,
        Wish::Rule => push_names(&mut offers, begun, NameKind::Rule)?,
        Wish::Value => push_values(alloc, &mut offers, begun)?,
        Wish::Class => push_classes(&mut offers, begun)?,
        Wish::Word => push_names(&mut offers, begun, NameKind::Word)?,
        Wish::Builder => push_rows(&mut offers, begun, WordKind::Builder, &BUILDERS)?,
        Wish::Parts(from, to) => push_parts(&mut offers, begun, from, to)?,
        Wish::Nothing => {}
    }
    Ok(offers)
}

/// Appends the rows whose words begin as what has been begun.
fn push_rows(
    offers: &mut Vec<Offer<'_>>,
    begun: &Begun<'_, '_>,
    kind: WordKind,
    rows: &[Row],
) -> Result<(), AllocError> {
    for row in rows {
        push_line(offers, begun, kind, line_of(row))?;
    }
    Ok(())
}

fn push_line(
    offers: &mut Vec<Offer<'_>>,
    begun: &Begun<'_, '_>,
    kind: WordKind,
    line: Line,
) -> Result<(), AllocError> {
    if begins_word(begun.characters, line.word) {
        offers.push(Offer::Word(kind, line))?;
    }
    Ok(())
}

/// The words inside items with these numbers.
fn push_parts(
    offers: &mut Vec<Offer<'_>>,
    begun: &Begun<'_, '_>,
    from: usize,
    to: usize,
) -> Result<(), AllocError> {
    for (number, row) in PARTS.iter().enumerate() {
        if from <= number && number < to {
            push_line(offers, begun, WordKind::Part, line_of(row))?;
        }
    }
    Ok(())
}

/// The forms, and the rules of the file.
fn push_values<'t>(
    alloc: Global,
    offers: &mut Vec<Offer<'t>>,
    begun: &Begun<'t, '_>,
) -> Result<(), AllocError> {
    for word in &FORMS {
        push_form(alloc, offers, begun, word)?;
    }
    push_line(offers, begun, WordKind::Form, line_of(&END))?;
    push_names(offers, begun, NameKind::Rule)
}

fn push_form(
    alloc: Global,
    offers: &mut Vec<Offer<'_>>,
    begun: &Begun<'_, '_>,
    word: &str,
) -> Result<(), AllocError> {
    let word = characters_of(alloc, word)?;
    match form_word(&word) {
        Some(form) => push_line(offers, begun, WordKind::Form, form_line(form, false)),
        None => Ok(()),
    }
}

/// `not`, the predicates, and the classes that are defined above.
fn push_classes<'t>(offers: &mut Vec<Offer<'t>>, begun: &Begun<'t, '_>) -> Result<(), AllocError> {
    push_parts(offers, begun, 5, 6)?;
    push_rows(offers, begun, WordKind::Predicate, &PREDICATES)?;
    push_names(offers, begun, NameKind::Class)
}

/// The names that items define for a kind; classes only up to the place.
fn push_names<'t>(
    offers: &mut Vec<Offer<'t>>,
    begun: &Begun<'t, '_>,
    kind: NameKind,
) -> Result<(), AllocError> {
    for name in begun.names {
        if is_offered(begun, kind, name) {
            offers.push(Offer::Name(kind, characters_in(begun.text, name.span)))?;
        }
    }
    Ok(())
}

fn is_offered(begun: &Begun<'_, '_>, kind: NameKind, name: &Occurrence) -> bool {
    match name.sense {
        Sense::Defines(other) => {
            other == kind
                && (kind != NameKind::Class || name.span.after < begun.span.first)
                && begins(begun.characters, characters_in(begun.text, name.span))
        }
        Sense::Uses(_) | Sense::Builder | Sense::Keyword | Sense::Stray => false,
    }
}

/// Whether a name begins with these characters.
fn begins(characters: &[char], name: &[char]) -> bool {
    match name.get(..characters.len()) {
        Some(first) => first == characters,
        None => false,
    }
}

/// Whether a word, which is ASCII, begins with these characters.
fn begins_word(characters: &[char], word: &str) -> bool {
    let mut rest = characters;
    for byte in word.as_bytes() {
        match rest {
            [first, after @ ..] if *first == char::from(*byte) => rest = after,
            [_, ..] => return false,
            [] => return true,
        }
    }
    rest.is_empty()
}
