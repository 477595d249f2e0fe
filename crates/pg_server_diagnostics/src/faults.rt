//! The faults of a file.

use crate::diagnostic::{Diagnostic, Severity};
use crate::places::{place_of, word_at};
use pg_file::{FaultKind, FileFault};
use pg_file_faults::{ToldFault, faults_of};
use pg_pred::Registry;
use pg_text::characters_of;
use std::alloc::{AllocError, Global};

/// The faults of a file with this text, of which the first is given.
pub(crate) fn faults_told(
    alloc: Global,
    text: &str,
    registry: &Registry,
    first: &FileFault,
) -> Result<Vec<Diagnostic>, AllocError> {
    let told = faults_of(alloc, text.as_bytes(), registry, first)?;
    let found = all_told(alloc, text, told.as_slice());
    drop(told);
    found
}

/// The diagnostics of these faults.
fn all_told(alloc: Global, text: &str, told: &[ToldFault]) -> Result<Vec<Diagnostic>, AllocError> {
    let characters = characters_of(alloc, text)?;
    let mut found = Vec::new(alloc);
    for one in told {
        let diagnostic = fault_told(alloc, characters.as_slice(), &one.fault)?;
        found.push(diagnostic)?;
    }
    Ok(found)
}

/// The diagnostic of a fault.
fn fault_told(alloc: Global, text: &[char], fault: &FileFault) -> Result<Diagnostic, AllocError> {
    let kind = &fault.kind;
    let message = format!(in alloc; "{kind}")?;
    Ok(Diagnostic {
        span: word_at(text, place_of(text, fault.position)),
        severity: Severity::Error,
        code: Some(code_of(kind)),
        message,
        others: Vec::new(alloc),
    })
}

/// The code of a fault.
fn code_of(kind: &FaultKind) -> &'static str {
    match kind {
        FaultKind::NotUtf8 => "F1",
        FaultKind::BadToken => "F2",
        FaultKind::UnexpectedToken => "F3",
        FaultKind::UnknownName => "F4",
        FaultKind::NameTwice => "F5",
        FaultKind::NoStart => "F6",
        FaultKind::BadLiteral => "F7",
        FaultKind::LimitPassed => "F8",
        FaultKind::NotAdmitted(_) => "F9",
    }
}
