//! Why a table doesn't admit an operator or can't be extended by one, and why a grammar has no initial table.
//!
//! The reasons are checked in this order, and the first that applies is returned (ours). Programs print these texts.

ghost use Rattle.std.specs.Prelude.{◌≡◌};
ghost use Rattle.pg_table.specs.FaultLabels.{fault_label};
ghost use Rattle.pg_table.specs.declared.admit_fault.InitialFault.TheVariants.{Memory};
ghost use Rattle.pg_table.specs.declared.admit_fault.ExtendFault.TheVariants as extend_fault;

use std::alloc::{AllocError, AllocFailed};
use thiserror::Error;

/// Why an operator isn't admitted.
#[derive(Clone, Copy, Debug, PartialEq, Eq, Drop, Error)]
pub enum AdmitFault {
    /// Its symbol has more than 16 characters.
    #[error("A1")]
    SymbolTooLong,
    /// Its symbol is reserved.
    #[error("A2")]
    SymbolReserved,
    /// It is a prefix operator, and there is a prefix operator with this symbol already.
    #[error("A3")]
    PrefixThere,
    /// It isn't a prefix operator, and there is an infix or postfix operator with this symbol already.
    #[error("A4")]
    SymbolThere,
    /// The table is full.
    #[error("A5")]
    TableFull,
}

impl AdmitFault {
    /// Its label, `A1` to `A5`.
    pub fn label(&self) -> &'static str
        ensures { result.now ≡ fault_label self.now }
    {
        match self {
            AdmitFault::SymbolTooLong => "A1",
            AdmitFault::SymbolReserved => "A2",
            AdmitFault::PrefixThere => "A3",
            AdmitFault::SymbolThere => "A4",
            AdmitFault::TableFull => "A5",
        }
    }
}

/// Why a grammar has no initial table.
#[derive(Debug, Drop, Error)]
pub enum InitialFault {
    /// The initial declaration with this index, counted from 0, is the first that isn't admitted by those before it.
    #[error("F9 operator not admitted ({fault})")]
    NotAdmitted {
        /// How many initial declarations stand before it.
        index: usize,
        /// Why it isn't admitted.
        fault: AdmitFault,
    },
    /// Memory ran out.
    #[error("out of memory")]
    Memory,
}

impl From<AllocError> for InitialFault {
    ghost from_gives = { λ _ e. e ≡ Memory };

    fn from(_e: AllocError) -> InitialFault {
        InitialFault::Memory
    }
}

impl<T: Drop> From<AllocFailed<T>> for InitialFault {
    ghost from_gives = { λ _ e. e ≡ Memory };

    fn from(_e: AllocFailed<T>) -> InitialFault {
        InitialFault::Memory
    }
}

/// Why there is no copy of a table with one operator more.
#[derive(Debug, Drop, Error)]
pub enum ExtendFault {
    /// The operator isn't admitted.
    #[error("operator not admitted: {0}")]
    NotAdmitted(AdmitFault),
    /// Memory ran out.
    #[error("out of memory")]
    Memory,
}

impl From<AllocError> for ExtendFault {
    ghost from_gives = { λ _ e. e ≡ extend_fault.Memory };

    fn from(_e: AllocError) -> ExtendFault {
        ExtendFault::Memory
    }
}
