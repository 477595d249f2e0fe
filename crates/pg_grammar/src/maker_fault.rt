//! The refusals of a maker.
//!
//! The labels are those of the grammar file's faults, so that a maker and a reader of files report alike. A refusal
//! changes nothing: the maker that is handed back, or still held, can go on. Programs print these texts.

ghost use Rattle.std.specs.Prelude.{◌≡◌};
ghost use Rattle.pg_grammar.specs.declared.maker_fault.MakerFault.TheVariants.{Memory};

use crate::maker::Maker;
use std::alloc::{AllocError, AllocFailed};
use thiserror::Error;

/// Why a maker refused a part, or refused to finish.
#[derive(Debug, Drop, Error)]
pub enum MakerFault {
    /// A rule, a class item or a word item is named that doesn't exist, or operators are used without an operators item.
    #[error("F4 unknown name")]
    UnknownName,
    /// There is a rule, a class item or a word item of this name already, or an operators item, or a start rule.
    #[error("F5 name defined twice")]
    NameTwice,
    /// No start rule was named, or the name isn't a rule's.
    #[error("F6 no start rule")]
    NoStart,
    /// A string or a reserved text is empty, or a range descends.
    #[error("F7 bad literal")]
    BadLiteral,
    /// A name or literal is too long, there are too many items, rules or nodes, or the limit of a table isn't from 1 to
    /// 64 operators.
    #[error("F8 limit passed")]
    LimitPassed,
    /// Nothing is wrong with the parts, but memory ran out.
    #[error("out of memory")]
    Memory,
}

impl From<AllocError> for MakerFault {
    ghost from_gives = { λ _ e. e ≡ Memory };

    fn from(_e: AllocError) -> MakerFault {
        MakerFault::Memory
    }
}

impl<T: Drop> From<AllocFailed<T>> for MakerFault {
    ghost from_gives = { λ _ e. e ≡ Memory };

    fn from(_e: AllocFailed<T>) -> MakerFault {
        MakerFault::Memory
    }
}

/// A maker that couldn't finish, unchanged, and why.
#[derive(Drop)]
pub struct Unfinished {
    /// The maker as it was before, so that it can be completed and finished again.
    pub maker: Maker,
    /// F4, F6, or out of memory.
    pub fault: MakerFault,
}
