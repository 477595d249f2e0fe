//! Why bytes aren't a trail.

ghost use Rattle.std.specs.Prelude.{◌≡◌};
ghost use Rattle.pg_trail.specs.declared.trail_fault.TrailFault.TheVariants.{Memory, NotATrail};

use json::Invalid;
use std::alloc::{AllocError, AllocFailed};
use thiserror::Error;

/// Why bytes gave no trail (ours).
#[derive(Debug, Drop, Error)]
pub enum TrailFault {
    /// They are not UTF-8, or no JSON text, or their value is no trail's: it has another form, an unknown key or role, or a
    /// number that isn't a whole one from 0 to 18,446,744,073,709,551,615.
    #[error("not a trail")]
    NotATrail,
    /// Memory ran out.
    #[error("out of memory")]
    Memory,
}

impl From<Invalid> for TrailFault {
    ghost from_gives = { λ _ e. e ≡ NotATrail };

    fn from(_e: Invalid) -> TrailFault {
        TrailFault::NotATrail
    }
}

impl From<AllocError> for TrailFault {
    ghost from_gives = { λ _ e. e ≡ Memory };

    fn from(_e: AllocError) -> TrailFault {
        TrailFault::Memory
    }
}

impl<T: Drop> From<AllocFailed<T>> for TrailFault {
    ghost from_gives = { λ _ e. e ≡ Memory };

    fn from(_e: AllocFailed<T>) -> TrailFault {
        TrailFault::Memory
    }
}
