//! Which faults are reported: those that have a cause of their own.

use crate::remains::Remains;
use pg_file::{FaultKind, FileFault};
use std::alloc::{AllocError, Global};

/// For each kind of fault that brings others with it, whether one was found.
#[derive(Clone, Copy)]
pub(crate) struct Causes {
    has_start: bool,
    has_limit: bool,
    has_operator: bool,
}

impl Causes {
    /// After a first fault of this kind.
    pub(crate) fn new(first: FaultKind) -> Causes {
        let none = Causes {
            has_start: false,
            has_limit: false,
            has_operator: false,
        };
        none.with(first)
    }

    /// Adds a fault of this kind.
    fn with(self, kind: FaultKind) -> Causes {
        let Causes {
            has_start,
            has_limit,
            has_operator,
        } = self;
        Causes {
            has_start: has_start || matches!(kind, FaultKind::NoStart),
            has_limit: has_limit || matches!(kind, FaultKind::LimitPassed),
            has_operator: has_operator || matches!(kind, FaultKind::NotAdmitted(_)),
        }
    }

    /// Whether the next fault found has a cause of its own, and doesn't come only from what was skipped. Its kind is noted.
    pub(crate) fn has_own(
        &mut self,
        alloc: Global,
        remains: &Remains,
        fault: &FileFault,
    ) -> Result<bool, AllocError> {
        let is_own = self.is_own(alloc, remains, fault)?;
        *self = self.with(fault.kind);
        Ok(is_own)
    }

    /// Whether a fault doesn't come only from what was skipped.
    fn is_own(
        &self,
        alloc: Global,
        remains: &Remains,
        fault: &FileFault,
    ) -> Result<bool, AllocError> {
        match fault.kind {
            FaultKind::UnknownName => is_unheard(alloc, remains, fault),
            FaultKind::NoStart => Ok(!self.has_start && !remains.may_have_passed_start(alloc)?),
            FaultKind::LimitPassed => Ok(!self.has_limit),
            FaultKind::NotAdmitted(_) => Ok(
                !self.has_operator
                    && !remains.has_passed(alloc, "operators")?
                    && !remains.has_passed(alloc, "table")?,
            ),
            FaultKind::NotUtf8
            | FaultKind::BadToken
            | FaultKind::UnexpectedToken
            | FaultKind::NameTwice
            | FaultKind::BadLiteral => Ok(true),
        }
    }
}

/// Whether the name at a fault was neither skipped nor reported.
fn is_unheard(alloc: Global, remains: &Remains, fault: &FileFault) -> Result<bool, AllocError> {
    let word = remains.word_of(alloc, fault)?;
    Ok(!remains.has_defined(alloc, word)?)
}
