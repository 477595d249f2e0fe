//! Why a file wasn't read.
//!
//! The leftmost fault is reported, and at one place the one with the lowest number.

ghost use Rattle.std.specs.Prelude.{◌≡◌, ℕ, true, Option};
ghost use Rattle.std.specs.List.{list_any};
ghost use Rattle.pg_file.specs.declared.error.ReadError.TheVariants.{Memory};
ghost use Rattle.pg_file.specs.Answers.{IsFault};
ghost use Rattle.pg_file.specs.Refusals.{IsErrorAt, IsKindAt};
ghost use Rattle.pg_file_making.specs.Making.{IsRefusal};
ghost use Rattle.pg_file_parser.specs.Given as given;
ghost use Rattle.pg_file_tokens.specs.View.{is_bad_at};

use crate::file_fault::FaultKind;
use pg_file_making::{GrammarError, NameFaultKind};
use pg_file_parser::{SyntaxError, SyntaxFault};
use pg_file_tokens::{Lexeme, has_bad_at};
use std::alloc::{AllocError, AllocFailed};

/// Why a file wasn't read.
#[derive(Debug, Drop)]
pub enum ReadError {
    /// Memory ran out.
    Memory,
    /// A fault of the file, and how many characters stand before it; `None` stands for the end of the file.
    Fault(FaultKind, Option<usize>),
}

impl From<AllocError> for ReadError {
    ghost from_gives = { λ _ e. e ≡ Memory };

    fn from(_e: AllocError) -> ReadError {
        ReadError::Memory
    }
}

impl<T: Drop> From<AllocFailed<T>> for ReadError {
    ghost from_gives = { λ _ e. e ≡ Memory };

    fn from(_e: AllocFailed<T>) -> ReadError {
        ReadError::Memory
    }
}

/// The error for tokens that no items are read from.
pub fn syntax_error(error: SyntaxError, lexemes: &[Lexeme]) -> ReadError
    ensures fault { IsFault result → given.IsFault error }
    ensures kind { IsErrorAt (λ place. list_any (is_bad_at place) lexemes.now ≡ true) result }
{
    match error {
        SyntaxError::Memory => ReadError::Memory,
        SyntaxError::Fault(fault, place) => ReadError::Fault(kind_of(fault, place, lexemes), place),
    }
}

/// The kind of a file's fault for a fault of its tokens at a place.
pub fn kind_of(fault: SyntaxFault, place: Option<usize>, lexemes: &[Lexeme]) -> FaultKind
    ensures { IsKindAt (λ place. list_any (is_bad_at place) lexemes.now ≡ true) place result }
{
    match fault {
        SyntaxFault::UnexpectedToken => unexpected_kind(place, lexemes),
        SyntaxFault::BadLiteral => FaultKind::BadLiteral,
        SyntaxFault::LimitPassed => FaultKind::LimitPassed,
    }
}

/// The kind for an unexpected token at a place: a bad token if it is one.
fn unexpected_kind(place: Option<usize>, lexemes: &[Lexeme]) -> FaultKind
    ensures { IsKindAt (λ place. list_any (is_bad_at place) lexemes.now ≡ true) place result }
{
    match place {
        Some(place) if has_bad_at(lexemes, place) => FaultKind::BadToken,
        Some(_) | None => FaultKind::UnexpectedToken,
    }
}

/// The error for items that make no grammar.
pub fn grammar_error(error: GrammarError) -> ReadError
    ensures fault { IsFault result → IsRefusal error }
    ensures kind { IsErrorAt (λ place. ⊥) result }
{
    match error {
        GrammarError::Memory => ReadError::Memory,
        GrammarError::Refused(fault) => ReadError::Fault(kind_of_name(fault.kind), fault.place),
    }
}

/// The kind of a file's fault for a fault of a name.
pub fn kind_of_name(kind: NameFaultKind) -> FaultKind
    ensures { (place : Option ℕ) → IsKindAt (λ place. ⊥) place result }
{
    match kind {
        NameFaultKind::Unknown => FaultKind::UnknownName,
        NameFaultKind::Twice => FaultKind::NameTwice,
        NameFaultKind::NoStart => FaultKind::NoStart,
        NameFaultKind::NotAdmitted(fault) => FaultKind::NotAdmitted(fault),
    }
}
