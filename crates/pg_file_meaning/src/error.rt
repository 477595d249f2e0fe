//! Why items don't make a grammar.

ghost use Rattle.std.specs.Prelude.{◌≡◌};
ghost use Rattle.pg_file_meaning.specs.declared.error.MakingError.TheVariants.{Memory};

use std::alloc::{AllocError, AllocFailed};

/// Why items were not made into a grammar.
#[derive(Debug, Drop)]
pub enum MakingError {
    /// Memory ran out.
    Memory,
    /// They don't make a grammar. The name at fault is found elsewhere.
    Refused,
}

impl From<AllocError> for MakingError {
    ghost from_gives = { λ _ e. e ≡ Memory };

    fn from(_e: AllocError) -> MakingError {
        MakingError::Memory
    }
}

impl<T: Drop> From<AllocFailed<T>> for MakingError {
    ghost from_gives = { λ _ e. e ≡ Memory };

    fn from(_e: AllocFailed<T>) -> MakingError {
        MakingError::Memory
    }
}
