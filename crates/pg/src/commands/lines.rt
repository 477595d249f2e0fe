//! Parsing texts, with a line of JSON for each, parsed or not.

ghost use Rattle.std.specs.Prelude.{◌≡◌, ◌⊎◌, IfOk};
ghost use Rattle.pg_pred.specs.Offer.{offer_of};
ghost use Rattle.pg_grammar_value.specs.Fits.{Fits};
ghost use Rattle.pg_table.specs.Tables.{initial, whole};
ghost use Rattle.pg_report.specs.Status.{status_of};
ghost use Rattle.pg.specs.Status.{IsTextStatus};

use crate::commands::parse::tell_steps;
use pg_bench::{BenchFault, error_line, parse_line};
use pg_bench_grammar::AcceptedGrammar;
use pg_command_line::Steps;
use pg_pred::Registry;
use pg_report::{Handle, Names, UNUSABLE, found, print_page, print_report, said_of, status};
use pg_tree::Meter;
use std::alloc::{AllocError, Global};
use std::io;
use std::io::{Input, Read};
use std::rt::Files;

/// Parses the text with this name by a loaded grammar, and prints its line.
pub(crate) fn line_of_file<R: AllocGlobal + Files + Input + Print + Eprint>(
    rt: &Handle<R>,
    accepted: &AcceptedGrammar,
    names: Names,
    registry: &Registry,
    steps: Steps,
) -> Result<u8, AllocError>
    requires fits { Fits (offer_of registry.now) accepted.now.checked.grammar }
    requires table { initial accepted.now.checked.grammar ≡ whole accepted.now.table }
{
    match found(rt, names.text) {
        Some(file) => print_line(rt, accepted, file, names, registry, steps),
        None => tell_unread(rt, names.text),
    }
}

/// Prints the line of a text that can't be opened.
fn tell_unread<R: AllocGlobal + Print + Eprint>(
    rt: &Handle<R>,
    name: &str,
) -> Result<u8, AllocError> {
    let line = unread_line(rt.alloc(), name)?;
    print_page(rt, line.as_str())?;
    Ok(UNUSABLE)
}

/// The line of a text that can't be opened.
fn unread_line(alloc: Global, name: &str) -> Result<String, AllocError> {
    let said = format!(in alloc; "{name}: cannot read")?;
    error_line(alloc, name, said.as_str())
}

/// Parses the text that a file gives, and prints its line.
fn print_line<F: Read + Drop, R: AllocGlobal + Print + Eprint>(
    rt: &Handle<R>,
    accepted: &AcceptedGrammar,
    file: F,
    names: Names,
    registry: &Registry,
    steps: Steps,
) -> Result<u8, AllocError>
    requires fits { Fits (offer_of registry.now) accepted.now.checked.grammar }
    requires table { initial accepted.now.checked.grammar ≡ whole accepted.now.table }
    ensures { IfOk result (IsTextStatus accepted.now.checked.grammar (F.remaining file)) }
{
    let mut reader = Meter::new(file);
    let mut writer = Meter::new(io::writer(rt));
    match parse_line(
        rt.alloc(),
        accepted,
        registry,
        &mut reader,
        &mut writer,
        names.text,
    ) {
        Ok(done) => {
            tell_steps(rt, done, names.text, steps);
            Ok(0)
        }
        Err(fault) => print_line_fault(rt, fault, names),
    }
}

/// Prints the line of a text that has no trees, and answers the status. Output that can't be written, and running out of memory, are reported as always.
fn print_line_fault<R: AllocGlobal + Print + Eprint>(
    rt: &Handle<R>,
    fault: BenchFault,
    names: Names,
) -> Result<u8, AllocError>
    ensures { IfOk result (λ status. (status ≡ UNUSABLE) ⊎ (status ≡ status_of fault)) }
{
    match &fault {
        BenchFault::Writer | BenchFault::Memory => print_report(rt, fault, names),
        BenchFault::File(_)
        | BenchFault::Refused(_)
        | BenchFault::Reader
        | BenchFault::NotUtf8
        | BenchFault::TooLong
        | BenchFault::NotATrail
        | BenchFault::NotVerified(_)
        | BenchFault::ParseError(_) => {
            let printed = print_error_line(rt, &fault, names);
            drop(fault);
            printed
        }
    }
}

/// Prints the line with the report of a fault.
fn print_error_line<R: AllocGlobal + Print + Eprint>(
    rt: &Handle<R>,
    fault: &BenchFault,
    names: Names,
) -> Result<u8, AllocError>
    ensures { IfOk result (λ status. (status ≡ UNUSABLE) ⊎ (status ≡ status_of fault.now)) }
{
    let line = fault_line(rt.alloc(), fault, names)?;
    if print_page(rt, line.as_str())? == UNUSABLE {
        return Ok(UNUSABLE);
    }
    Ok(status(fault))
}

/// The line with the report of a fault, without the report's line feed.
fn fault_line(alloc: Global, fault: &BenchFault, names: Names) -> Result<String, AllocError> {
    let said = said_of(alloc, fault, names)?;
    let said = said.as_str();
    error_line(alloc, names.text, said.strip_suffix('\n').unwrap_or(said))
}
