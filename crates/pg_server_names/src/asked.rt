//! Where the name at a place is defined and used.

ghost use Rattle.std.specs.Prelude.{◌≡◌, find, option_copied, IfOk};
ghost use Rattle.pg_server_names.specs.Asked as asked;
ghost use Rattle.pg_server_names.specs.Asked.{is_at, characters_in, is_found, found, like};

use crate::sense::{NameKind, Occurrence, Which};
use pg_file_items::Span;
use std::alloc::{AllocError, Global};

/// The name at a place, or just behind it.
pub fn name_at(names: &[Occurrence], place: usize) -> Option<Occurrence>
    ensures { result ≡ asked.name_at names.now place }
{
    first_at(names, place).copied()
}

/// The first name at a place, or just behind it.
fn first_at(names: &[Occurrence], place: usize) -> Option<&Occurrence>
    ensures { option_copied result ≡ find (λ o. is_at place o) names.now }
{
    for name in names {
        if is_at(name, place) {
            return Some(name);
        }
    }
    None
}

fn is_at(name: &Occurrence, place: usize) -> bool
    ensures { result ≡ is_at place name.now }
{
    name.span.first <= place && place <= name.span.after
}

/// The characters of a span; none where it passes the end of the text.
pub fn characters_in(text: &[char], span: Span) -> &[char]
    ensures { result.now ≡ characters_in text.now span }
{
    match text.get(span.first..span.after) {
        Some(characters) => characters,
        None => &[],
    }
}

/// Where the name at a place is defined, used, or both, in the order of the file (ours). `names` are those of the text. A name may be defined several times, which
/// is a fault of the file. Nothing is answered where no name of the file is: a builder's name or a word has no definition there, and a predicate that no
/// class item defines only has uses. Fails where memory runs out.
pub fn places(
    alloc: Global,
    text: &[char],
    names: &[Occurrence],
    place: usize,
    which: Which,
) -> Result<Vec<Span>, AllocError>
    ensures { IfOk result (λ spans. spans.items ≡ like text.now names.now which (asked.name_at names.now place)) }
{
    let Some(name) = name_at(names, place) else {
        return Ok(Vec::new(alloc));
    };
    match name.sense.kind() {
        Some(kind) => found(
            alloc,
            text,
            names,
            which,
            kind,
            characters_in(text, name.span),
        ),
        None => Ok(Vec::new(alloc)),
    }
}

/// Where the names of a kind with these characters are that are asked for.
pub(crate) fn found(
    alloc: Global,
    text: &[char],
    names: &[Occurrence],
    which: Which,
    kind: NameKind,
    characters: &[char],
) -> Result<Vec<Span>, AllocError>
    ensures { IfOk result (λ spans. spans.items ≡ found text.now names.now which kind characters.now) }
{
    let mut spans = Vec::new(alloc);
    for name in names {
        if is_found(text, which, kind, characters, name) {
            spans.push(name.span)?;
        }
    }
    Ok(spans)
}

/// Whether a name is asked for and has these characters.
pub(crate) fn is_found(
    text: &[char],
    which: Which,
    kind: NameKind,
    characters: &[char],
    name: &Occurrence,
) -> bool
    ensures { result ≡ is_found text.now which kind characters.now name.now }
{
    name.sense.is_asked(which, kind) && characters_in(text, name.span) == characters
}
