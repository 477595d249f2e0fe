//! What is printed of a grammar: its canonical form, its sets, a Haskell module, and whether a certificate shows that it is accepted.

ghost use Rattle.std.specs.Prelude.{IfOk};
ghost use Rattle.pg_pred.specs.Offer.{offer_of};
ghost use Rattle.pg.specs.Status.{IsPrintStatus, IsVerifyStatus};

use pg_bench::{print_bytes, sets_bytes, verify_bytes};
use pg_bench_haskell::{haskell_bytes, is_module_name};
use pg_pred::Registry;
use pg_report::{
    Handle, Names, UNUSABLE, grammar_alone, grammar_with_certificate, print_report, print_verdict,
    refuse,
};
use pg_tree::Meter;
use std::alloc::AllocError;
use std::io;
use std::io::Input;
use std::rt::Files;

/// Prints whether the certificate in a file shows that the grammar in another is accepted, or why it doesn't.
pub(crate) fn verify_files<R: AllocGlobal + Files + Input + Print + Eprint>(
    rt: &Handle<R>,
    grammar: &str,
    certificate: &str,
    registry: &Registry,
) -> Result<u8, AllocError> {
    match grammar_with_certificate(rt, grammar, certificate)? {
        Some((bytes, claims)) => {
            verify_grammar(rt, bytes.as_slice(), claims.as_slice(), grammar, registry)
        }
        None => Ok(UNUSABLE),
    }
}

fn verify_grammar<R: AllocGlobal + Print + Eprint>(
    rt: &Handle<R>,
    bytes: &[u8],
    certificate: &[u8],
    grammar: &str,
    registry: &Registry,
) -> Result<u8, AllocError>
    ensures { IfOk result (IsVerifyStatus (offer_of registry.now) bytes.now certificate.now) }
{
    let verdict = verify_bytes(rt.alloc(), bytes, registry, certificate);
    print_verdict(rt, verdict, Names::of_grammar(grammar))
}

/// Prints the canonical form of the grammar in a file.
pub(crate) fn print_file<R: AllocGlobal + Files + Input + Print + Eprint>(
    rt: &Handle<R>,
    grammar: &str,
    registry: &Registry,
) -> Result<u8, AllocError> {
    match grammar_alone(rt, grammar)? {
        Some(bytes) => print_grammar(rt, bytes.as_slice(), grammar, registry),
        None => Ok(UNUSABLE),
    }
}

fn print_grammar<R: AllocGlobal + Print + Eprint>(
    rt: &Handle<R>,
    bytes: &[u8],
    grammar: &str,
    registry: &Registry,
) -> Result<u8, AllocError>
    ensures { IfOk result (IsPrintStatus (offer_of registry.now) bytes.now) }
{
    let mut writer = Meter::new(io::writer(rt));
    match print_bytes(rt.alloc(), bytes, registry, &mut writer) {
        Ok(()) => Ok(0),
        Err(fault) => print_report(rt, fault, Names::of_grammar(grammar)),
    }
}

/// Prints the sets of the grammar in a file.
pub(crate) fn show_file<R: AllocGlobal + Files + Input + Print + Eprint>(
    rt: &Handle<R>,
    grammar: &str,
    registry: &Registry,
) -> Result<u8, AllocError> {
    match grammar_alone(rt, grammar)? {
        Some(bytes) => show_grammar(rt, bytes.as_slice(), grammar, registry),
        None => Ok(UNUSABLE),
    }
}

fn show_grammar<R: AllocGlobal + Print + Eprint>(
    rt: &Handle<R>,
    bytes: &[u8],
    grammar: &str,
    registry: &Registry,
) -> Result<u8, AllocError>
    ensures { IfOk result (IsPrintStatus (offer_of registry.now) bytes.now) }
{
    let mut writer = Meter::new(io::writer(rt));
    match sets_bytes(rt.alloc(), bytes, registry, &mut writer) {
        Ok(()) => Ok(0),
        Err(fault) => print_report(rt, fault, Names::of_grammar(grammar)),
    }
}

/// Prints the grammar in a file as a Haskell module with this name, if a module can have it.
pub(crate) fn translate_file<R: AllocGlobal + Files + Input + Print + Eprint>(
    rt: &Handle<R>,
    grammar: &str,
    registry: &Registry,
    module: &str,
) -> Result<u8, AllocError> {
    if !is_module_name(module) {
        return Ok(refuse(
            rt.rt,
            format_args!("pgw: {module} can't be the module's name"),
        ));
    }
    match grammar_alone(rt, grammar)? {
        Some(bytes) => translate_grammar(rt, bytes.as_slice(), grammar, registry, module),
        None => Ok(UNUSABLE),
    }
}

fn translate_grammar<R: AllocGlobal + Print + Eprint>(
    rt: &Handle<R>,
    bytes: &[u8],
    grammar: &str,
    registry: &Registry,
    module: &str,
) -> Result<u8, AllocError>
    ensures { IfOk result (IsPrintStatus (offer_of registry.now) bytes.now) }
{
    let mut writer = Meter::new(io::writer(rt));
    match haskell_bytes(rt.alloc(), grammar, bytes, registry, &mut writer, module) {
        Ok(()) => Ok(0),
        Err(fault) => print_report(rt, fault, Names::of_grammar(grammar)),
    }
}
