//! Another name for what a file defines: the places to change, or why it can't have that name.

ghost use Rattle.std.specs.Prelude.{◌≡◌, IfOk, IfErr, OnOk, None};
ghost use Rattle.std.specs.List.{list_all};
ghost use Rattle.std.specs.Char.{is_ascii_alphabetic};
ghost use Rattle.pg_file_tokens.specs.Lexical.{is_name, starts, goes_in_name};
ghost use Rattle.pg_pred.specs.Offer.{offer_of};
ghost use Rattle.pg_file_meaning.specs.Names.{is_predicate_name};
ghost use Rattle.pg_server_names.specs.declared.renaming.RenameError.TheVariants.{Memory};
ghost use Rattle.pg_server_names.specs.Asked as asked;
ghost use Rattle.pg_server_names.specs.Asked.{why, is_taken, is_class, like};
ghost use Rattle.pg_server_names.specs.Renaming.{Says};

use crate::asked::{characters_in, is_found, name_at, places};
use crate::sense::{NameKind, Occurrence, Which};
use pg_file_items::{Span, is_reserved};
use pg_file_meaning::is_predicate_name;
use pg_grammar_form::NAME_LIMIT;
use pg_pred::Registry;
use std::alloc::{AllocError, Global};

/// Why a name can't become another one.
#[derive(Clone, Copy, Debug, PartialEq, Eq)]
pub enum Refusal {
    /// It isn't a name that an item of the file defines: a predicate, a builder, a word, or an unknown name; or there is no name at the place.
    NotDefined,
    /// The new one isn't a letter and then letters, digits and `_`, or has over 64 characters.
    NoName,
    /// The new one is a reserved word.
    Reserved,
    /// An item defines the new one for the same kind.
    Taken,
    /// The new one is a predicate's, which no class can have.
    Predicate,
}

/// Why the places of a name weren't answered.
#[derive(Debug, Drop)]
pub enum RenameError {
    /// Memory ran out.
    Memory,
    /// It can't become the new one.
    Refused(Refusal),
}

impl From<AllocError> for RenameError {
    ghost from_gives = { λ _ e. e ≡ Memory };

    fn from(_e: AllocError) -> RenameError {
        RenameError::Memory
    }
}

/// The places that get the new name: all where the name at the place is defined or used, in the order of the file (ours). `names` are those of the text. What
/// the file means stays the same but for the name, since no item of the kind has the new one. The error says why it is refused, or that memory ran out.
pub fn renamed(
    alloc: Global,
    registry: &Registry,
    text: &[char],
    names: &[Occurrence],
    place: usize,
    new: &[char],
) -> Result<Vec<Span>, RenameError>
    ensures free { OnOk result (why text.now names.now (is_predicate_name (offer_of registry.now) new.now) new.now (asked.name_at names.now place) ≡ None) }
    ensures spans { IfOk result (λ spans. spans.items ≡ like text.now names.now Which.Both (asked.name_at names.now place)) }
    ensures refused { IfErr result (λ e. Says (why text.now names.now (is_predicate_name (offer_of registry.now) new.now) new.now (asked.name_at names.now place)) e) }
{
    let is_predicate = is_predicate_name(alloc, registry, new)?;
    match why(text, names, is_predicate, new, name_at(names, place)) {
        Some(refusal) => Err(RenameError::Refused(refusal)),
        None => Ok(places(alloc, text, names, place, Which::Both)?),
    }
}

/// Why the new name can't take the place of this one, if it can't.
fn why(
    text: &[char],
    names: &[Occurrence],
    is_predicate: bool,
    new: &[char],
    name: Option<Occurrence>,
) -> Option<Refusal>
    ensures { result ≡ asked.why text.now names.now is_predicate new.now name }
{
    let Some(name) = name else {
        return Some(Refusal::NotDefined);
    };
    match name.sense.kind() {
        Some(kind) if is_taken(text, names, kind, characters_in(text, name.span)) => {
            refused(text, names, kind, is_predicate, new)
        }
        Some(_) | None => Some(Refusal::NotDefined),
    }
}

/// Why the characters can't name what is of this kind, if they can't.
fn refused(
    text: &[char],
    names: &[Occurrence],
    kind: NameKind,
    is_predicate: bool,
    new: &[char],
) -> Option<Refusal>
    ensures { result ≡ asked.refused text.now names.now kind is_predicate new.now }
{
    if !is_name(new) || new.len() > NAME_LIMIT {
        Some(Refusal::NoName)
    } else if is_reserved(new) {
        Some(Refusal::Reserved)
    } else if is_taken(text, names, kind, new) {
        Some(Refusal::Taken)
    } else if is_class(kind) && is_predicate {
        Some(Refusal::Predicate)
    } else {
        None
    }
}

fn is_taken(text: &[char], names: &[Occurrence], kind: NameKind, characters: &[char]) -> bool
    ensures { result ≡ is_taken text.now names.now kind characters.now }
{
    names.iter().any(|name| is_found(text, Which::Definitions, kind, characters, name))
}

fn is_class(kind: NameKind) -> bool
    ensures { result ≡ is_class kind }
{
    match kind {
        NameKind::Class => true,
        NameKind::Rule | NameKind::Word => false,
    }
}

/// Whether the characters are one name.
#[tactic(auto, using(crate::proofs::NameLemmas::all_pass))]
fn is_name(characters: &[char]) -> bool
    ensures { result ≡ is_name characters.now }
{
    starts(characters) && go_on(characters)
}

fn go_on(characters: &[char]) -> bool
    ensures { result ≡ list_all (λ c. goes_in_name c) characters.now }
{
    characters.iter().all(|c| goes_in_name(*c))
}

fn starts(characters: &[char]) -> bool
    ensures { result ≡ starts is_ascii_alphabetic characters.now }
{
    match characters {
        [first, ..] => first.is_ascii_alphabetic(),
        [] => false,
    }
}

fn goes_in_name(c: char) -> bool
    ensures { result ≡ goes_in_name c }
{
    c.is_ascii_alphanumeric() || c == '_'
}
