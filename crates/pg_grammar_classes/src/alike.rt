//! Class expressions that are written alike.
//!
//! A short form of a file stands for several forms with equal expressions, which may be long; those forms share one set. Expressions that name predicates
//! aren't compared; their sets are shared already.

ghost use Rattle.std.specs.Prelude.{◌≡◌, true, IfSome};
ghost use Rattle.pg_grammar_classes.specs.Alike.{part_of};

use pg_grammar_form::ClassPart;

/// The kind of a part that isn't a predicate.
#[derive(Clone, Copy, Debug, PartialEq, Eq)]
pub(crate) enum Kind {
    Literal,
    Range,
    Union,
    Complement,
    Class,
}

/// A key that determines a part: its kind with its characters, or with up to two numbers.
#[derive(Clone, Copy)]
struct Key<'a> {
    kind: Kind,
    characters: &'a [char],
    first: usize,
    last: usize,
}

/// Whether two expressions are written alike. It may miss some that are.
pub(crate) fn are_alike(one: &[ClassPart], other: &[ClassPart]) -> bool
    ensures { result ≡ true → one.now ≡ other.now }
{
    if one.len() != other.len() {
        return false;
    }
    for (i, part) in one.iter().enumerate() {
        if !is_alike(part, &other[i]) {
            return false;
        }
    }
    true
}

/// Whether two parts are written alike.
fn is_alike(one: &ClassPart, other: &ClassPart) -> bool
    ensures { result ≡ true → one.now ≡ other.now }
{
    match key_of(one) {
        Some(key) => has_key(other, key),
        None => false,
    }
}

/// Whether this is the part's key.
fn has_key(part: &ClassPart, told: Key<'_>) -> bool
    ensures { result ≡ true → part.now ≡ part_of told.entry.kind told.entry.characters.now told.entry.first told.entry.last }
{
    match key_of(part) {
        Some(key) => {
            key.kind == told.kind
                && key.characters == told.characters
                && key.first == told.first
                && key.last == told.last
        }
        None => false,
    }
}

/// The key of a part; a predicate has none.
fn key_of(part: &ClassPart) -> Option<Key<'_>>
    ensures { IfSome result (λ k. part.now ≡ part_of k.kind k.characters.now k.first k.last) }
{
    match part {
        ClassPart::Literal(characters) => Some(told(Kind::Literal, characters.as_slice(), 0, 0)),
        ClassPart::Range(low, high) => {
            Some(told(
                Kind::Range,
                &[],
                u32::from(*low) as usize,
                u32::from(*high) as usize,
            ))
        }
        ClassPart::Union(count) => Some(told(Kind::Union, &[], *count, 0)),
        ClassPart::Complement => Some(told(Kind::Complement, &[], 0, 0)),
        ClassPart::Class(item) => Some(told(Kind::Class, &[], item.index(), 0)),
        ClassPart::Predicate(_) => None,
    }
}

/// The key with these contents.
fn told(kind: Kind, characters: &[char], first: usize, last: usize) -> Key<'_>
    ensures { (result.kind ≡ kind) × (result.characters.now ≡ characters.now) × (result.first ≡ first) × (result.last ≡ last) }
{
    Key {
        kind,
        characters,
        first,
        last,
    }
}
