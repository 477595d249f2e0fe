//! Why items don't make a grammar: the name at fault, and its place.

ghost use Rattle.std.specs.Prelude.{◌≡◌};
ghost use Rattle.pg_file_making.specs.declared.name_fault.GrammarError.TheVariants.{Memory};

use pg_table::AdmitFault;
use std::alloc::{AllocError, AllocFailed};

/// What can be wrong with a name or an initial operator.
#[derive(Clone, Copy)]
pub enum NameFaultKind {
    /// The name is unknown.
    Unknown,
    /// It is defined already, or it is a second start or `operators` item.
    Twice,
    /// The start names no rule, or there is no start.
    NoStart,
    /// The initial operator isn't admitted by those above it.
    NotAdmitted(AdmitFault),
}

/// A fault, and how many characters of the file stand before it; `None` is the end of the file.
#[derive(Clone, Copy)]
pub struct NameFault {
    pub kind: NameFaultKind,
    pub place: Option<usize>,
}

/// Why items don't make a grammar.
#[derive(Drop)]
pub enum GrammarError {
    /// Memory ran out.
    Memory,
    /// They don't, and this is their first fault in file order.
    Refused(NameFault),
}

impl From<AllocError> for GrammarError {
    ghost from_gives = { λ _ e. e ≡ Memory };

    fn from(_e: AllocError) -> GrammarError {
        GrammarError::Memory
    }
}

impl<T: Drop> From<AllocFailed<T>> for GrammarError {
    ghost from_gives = { λ _ e. e ≡ Memory };

    fn from(_e: AllocFailed<T>) -> GrammarError {
        GrammarError::Memory
    }
}
