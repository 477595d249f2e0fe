//! The faults of a file, one after another.

ghost use Rattle.std.specs.Prelude.{◌≡◌, IfOk};
ghost use Rattle.pg_file_faults.specs.Told.{IsToldFirst};

use crate::causes::Causes;
use crate::remains::Remains;
use pg_file::FileFault;
use pg_pred::Registry;
use std::alloc::{AllocError, Global};

/// The most faults of a file that are reported.
const MOST: usize = 10;

/// The most times that a file is read again.
const ROUNDS: usize = 40;

/// The most bytes that a grammar file may have. A longer one is refused whatever else is wrong with it, and reading it forty times would take a minute.
const FILE_LIMIT: usize = 262_144;

/// A fault of a file.
#[derive(Drop)]
pub struct ToldFault {
    /// What is wrong, and where.
    pub fault: FileFault,
    /// The file as far as it is left: earlier items with faults are blanks, and their definitions are added at the end.
    pub file: Vec<u8>,
}

/// The faults of a grammar file with these bytes, given the first, with which reading refuses it. At most ten are reported: faults of tokens before those of
/// names, both in file order, and one for each item except for unknown names (ours). A fault that comes only from an item already reported isn't reported,
/// and an unknown name is reported once. Of a file with more than 262,144 bytes, which is too long for a grammar file, only the first is reported.
pub fn faults_of(
    alloc: Global,
    bytes: &[u8],
    registry: &Registry,
    first: &FileFault,
) -> Result<Vec<ToldFault>, AllocError>
    ensures { IfOk result (λ told. IsToldFirst bytes.now first.now told.items) }
{
    let others = others(alloc, bytes, registry, first)?;
    let file = Vec::from_slice(alloc, bytes)?;
    with_first(
        alloc,
        ToldFault {
            fault: *first,
            file,
        },
        others,
    )
}

/// These faults, after the first.
#[tactic(auto, using(crate::proofs::Told::told_first))]
fn with_first(
    alloc: Global,
    first: ToldFault,
    others: Vec<ToldFault>,
) -> Result<Vec<ToldFault>, AllocError>
    ensures { IfOk result (λ told. IsToldFirst first.file.items first.fault told.items) }
{
    let mut told = Vec::new(alloc);
    told.push(first)?;
    let mut others = others;
    told.append(&mut others)?;
    Ok(told)
}

/// The faults after the first. Of a file that is too long there are none, and of one that isn't UTF-8.
fn others(
    alloc: Global,
    bytes: &[u8],
    registry: &Registry,
    first: &FileFault,
) -> Result<Vec<ToldFault>, AllocError> {
    if bytes.len() > FILE_LIMIT {
        return Ok(Vec::new(alloc));
    }
    match str::from_utf8(bytes) {
        Ok(text) => further(alloc, text, registry, first),
        Err(_) => Ok(Vec::new(alloc)),
    }
}

/// The faults of a text after the first.
fn further(
    alloc: Global,
    text: &str,
    registry: &Registry,
    first: &FileFault,
) -> Result<Vec<ToldFault>, AllocError> {
    let mut told = Vec::new(alloc);
    let mut causes = Causes::new(first.kind);
    let mut remains = Remains::of(alloc, text)?;
    let mut fault = *first;
    for _ in 0..ROUNDS {
        if told.len() >= MOST - 1 || !remains.pass(alloc, registry, &fault)? {
            break;
        }
        let Some(next) = remains.fault(alloc, registry)? else {
            break;
        };
        if next != fault && causes.has_own(alloc, &remains, &next)? {
            push_told(alloc, &mut told, &remains, next)?;
        }
        fault = next;
    }
    Ok(told)
}

/// Pushes a fault of the rest of the file.
fn push_told(
    alloc: Global,
    told: &mut Vec<ToldFault>,
    remains: &Remains,
    fault: FileFault,
) -> Result<(), AllocError> {
    let file = remains.file(alloc)?;
    told.push(ToldFault { fault, file })?;
    Ok(())
}
