//! Whether grammars are accepted.

ghost use Rattle.std.specs.Prelude.{IfOk};
ghost use Rattle.pg_pred.specs.Offer.{offer_of};
ghost use Rattle.pg.specs.Status.{IsCheckStatus};

use crate::NO_MEMORY;
use crate::commands::NO;
use crate::commands::cost::check_with_cost;
use crate::commands::listing::check_as_json;
use pg_bench::check_bytes;
use pg_bench_places::{InFront, placed_bytes};
use pg_command_line::{Accepted, Findings};
use pg_pred::Registry;
use pg_report::{Handle, Names, UNUSABLE, grammar_alone, print_report};
use pg_tree::Meter;
use std::alloc::AllocError;
use std::io::Input;
use std::rt::Files;
use std::{cmp, io};

/// What a check prints besides its findings.
#[derive(Clone, Copy)]
pub(crate) struct Checking {
    pub(crate) accepted: Accepted,
    pub(crate) findings: Findings,
    /// Whether to print notes.
    pub(crate) notes: bool,
}

/// Says of each grammar whether it is accepted, or prints its findings. If there are several grammars, each line begins with its file's name. The status is
/// the greatest of all. Where memory runs out, no more grammars are checked.
pub(crate) fn check_files<R: AllocGlobal + Files + Input + Print + Eprint>(
    rt: &Handle<R>,
    grammars: &[&str],
    registry: &Registry,
    checking: Checking,
) -> Result<u8, AllocError> {
    let names = grammars.len() > 1;
    let mut greatest = 0;
    for grammar in grammars {
        let status = check_file(rt, grammar, registry, checking, names)?;
        greatest = cmp::max(greatest, status);
        if rt.has_failed() || status == NO_MEMORY {
            break;
        }
    }
    Ok(greatest)
}

/// Says whether the grammar in a file is accepted, or prints its findings. If `names`, each line begins with the file's name.
fn check_file<R: AllocGlobal + Files + Input + Print + Eprint>(
    rt: &Handle<R>,
    grammar: &str,
    registry: &Registry,
    checking: Checking,
    names: bool,
) -> Result<u8, AllocError> {
    match grammar_alone(rt, grammar)? {
        Some(bytes) => check_read(rt, bytes.as_slice(), grammar, registry, checking, names),
        None => Ok(UNUSABLE),
    }
}

/// As `check_file`, for the bytes of a file with this name.
fn check_read<R: AllocGlobal + Print + Eprint>(
    rt: &Handle<R>,
    bytes: &[u8],
    grammar: &str,
    registry: &Registry,
    checking: Checking,
    names: bool,
) -> Result<u8, AllocError>
    ensures { IfOk result (IsCheckStatus (offer_of registry.now) bytes.now) }
{
    let in_front = match checking.findings {
        Findings::Json => return check_as_json(rt, bytes, grammar, registry, checking.notes),
        Findings::Places if names => Some(InFront::PlaceOrName),
        Findings::Places => Some(InFront::Place),
        Findings::Lines if names => Some(InFront::Name),
        Findings::Lines => None,
    };
    let certificate = match checking.accepted {
        Accepted::WordAndCost => return check_with_cost(rt, bytes, grammar, registry, in_front),
        Accepted::Certificate => true,
        Accepted::Word => false,
    };
    match in_front {
        Some(in_front) => check_placed(rt, bytes, grammar, registry, certificate, in_front),
        None => check_grammar(rt, bytes, grammar, registry, certificate),
    }
}

/// Prints each line after its place or the file's name.
fn check_placed<R: AllocGlobal + Print + Eprint>(
    rt: &Handle<R>,
    bytes: &[u8],
    grammar: &str,
    registry: &Registry,
    certificate: bool,
    in_front: InFront,
) -> Result<u8, AllocError>
    ensures { IfOk result (IsCheckStatus (offer_of registry.now) bytes.now) }
{
    let mut writer = Meter::new(io::writer(rt));
    match placed_bytes(
        rt.alloc(),
        grammar,
        bytes,
        registry,
        &mut writer,
        in_front,
        certificate,
    ) {
        Ok(true) => Ok(0),
        Ok(false) => Ok(NO),
        Err(fault) => print_report(rt, fault, Names::of_grammar(grammar)),
    }
}

/// Prints each line without a prefix.
fn check_grammar<R: AllocGlobal + Print + Eprint>(
    rt: &Handle<R>,
    bytes: &[u8],
    grammar: &str,
    registry: &Registry,
    certificate: bool,
) -> Result<u8, AllocError>
    ensures { IfOk result (IsCheckStatus (offer_of registry.now) bytes.now) }
{
    let mut writer = Meter::new(io::writer(rt));
    match check_bytes(rt.alloc(), bytes, registry, &mut writer, certificate) {
        Ok(true) => Ok(0),
        Ok(false) => Ok(NO),
        Err(fault) => print_report(rt, fault, Names::of_grammar(grammar)),
    }
}
