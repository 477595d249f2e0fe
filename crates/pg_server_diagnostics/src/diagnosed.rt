//! The diagnostics of a document.

use crate::diagnostic::Diagnostic;
use crate::faults::faults_told;
use crate::findings::findings_told;
use crate::notes::notes_told;
use pg_bench_grammar::{BenchFault, Judgement, LoadedFile, load};
use pg_pred::Registry;
use std::alloc::{AllocError, Global};

/// The most diagnostics of a document that are told.
pub const MOST: usize = 1000;

/// The diagnostics of a document with this text, in the order of `pgw check --json --notes`: the faults of a file that spells no grammar, the findings of a
/// refused grammar, or the notes on an accepted one; `MOST` of them at most (ours). The registry has the predicates and builders that the file may name.
/// Fails where memory runs out.
pub fn diagnostics_of(
    alloc: Global,
    text: &str,
    registry: &Registry,
) -> Result<Vec<Diagnostic>, AllocError> {
    match load(alloc, "", text.as_bytes(), registry) {
        Ok(loaded) => of_loaded(alloc, loaded),
        Err(fault) => of_fault(alloc, fault, text, registry),
    }
}

/// Those of a loaded file.
fn of_loaded(alloc: Global, loaded: LoadedFile) -> Result<Vec<Diagnostic>, AllocError> {
    let found = of_judgement(alloc, &loaded);
    drop(loaded);
    found
}

/// The findings or the notes.
fn of_judgement(alloc: Global, loaded: &LoadedFile) -> Result<Vec<Diagnostic>, AllocError> {
    match &loaded.judgement {
        Judgement::Accepted(checked) => notes_told(
            alloc,
            checked.grammar(),
            loaded.spans.as_slice(),
            loaded.characters.as_slice(),
        ),
        Judgement::Refused(refused) => findings_told(alloc, refused, loaded.spans.as_slice()),
    }
}

/// Those of a file that can't be loaded.
fn of_fault(
    alloc: Global,
    fault: BenchFault,
    text: &str,
    registry: &Registry,
) -> Result<Vec<Diagnostic>, AllocError> {
    let found = of_lent_fault(alloc, &fault, text, registry);
    drop(fault);
    found
}

/// As `of_fault`. Loading a file ends with a fault of the file or where memory runs out.
fn of_lent_fault(
    alloc: Global,
    fault: &BenchFault,
    text: &str,
    registry: &Registry,
) -> Result<Vec<Diagnostic>, AllocError> {
    match fault {
        BenchFault::File(first) => faults_told(alloc, text, registry, first),
        BenchFault::Memory => Err(AllocError),
        BenchFault::Refused(_)
        | BenchFault::Reader
        | BenchFault::NotUtf8
        | BenchFault::TooLong
        | BenchFault::NotATrail
        | BenchFault::NotVerified(_)
        | BenchFault::ParseError(_)
        | BenchFault::Writer => Ok(Vec::new(alloc)),
    }
}
