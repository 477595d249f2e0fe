//! The faults of a grammar file as lines of JSON.

ghost use Rattle.std.specs.Prelude.{◌≡◌, IfOk};
ghost use Rattle.pg_file.specs.Texts.{kind_text};
ghost use Rattle.pg_report.specs.Codes.{BeginsWithCode};
ghost use Rattle.pg_report.specs.Status.{status_of};

use crate::handle::Handle;
use crate::printing::{UNUSABLE, print_fault, print_page};
use crate::reporting::Names;
use pg_bench_grammar::BenchFault;
use pg_explain_json::fault_line;
use pg_file::{FaultKind, FileFault};
use pg_file_faults::faults_of;
use pg_pred::Registry;
use pg_text::{Pos, advanced};
use std::alloc::{AllocError, Global};

/// Prints a fault of the grammar file with these bytes, and the file's other faults, as lines of JSON to standard output. Prints the report of any other
/// fault. Answers the status. A quiet handle prints nothing to standard output, so it prints the report of every fault.
pub fn print_json_fault<R: AllocGlobal + Print + Eprint>(
    rt: &Handle<R>,
    fault: BenchFault,
    bytes: &[u8],
    grammar: &str,
    registry: &Registry,
) -> Result<u8, AllocError>
    ensures { IfOk result (λ status. status ≡ status_of fault) }
{
    let printed = json_fault(rt, &fault, bytes, grammar, registry);
    drop(fault);
    printed
}

/// As `print_json_fault`, for a borrowed fault.
fn json_fault<R: AllocGlobal + Print + Eprint>(
    rt: &Handle<R>,
    fault: &BenchFault,
    bytes: &[u8],
    grammar: &str,
    registry: &Registry,
) -> Result<u8, AllocError>
    ensures { IfOk result (λ status. status ≡ status_of fault.now) }
{
    if rt.is_quiet {
        return print_fault(rt, fault, Names::of_grammar(grammar));
    }
    match fault {
        BenchFault::File(fault) => print_file_faults(rt, fault, bytes, grammar, registry),
        BenchFault::Refused(_)
        | BenchFault::Reader
        | BenchFault::NotUtf8
        | BenchFault::TooLong
        | BenchFault::NotATrail
        | BenchFault::NotVerified(_)
        | BenchFault::ParseError(_)
        | BenchFault::Writer
        | BenchFault::Memory => print_fault(rt, fault, Names::of_grammar(grammar)),
    }
}

/// Prints the lines of the faults of a grammar file. The first fault is given.
fn print_file_faults<R: AllocGlobal + Print + Eprint>(
    rt: &R,
    first: &FileFault,
    bytes: &[u8],
    grammar: &str,
    registry: &Registry,
) -> Result<u8, AllocError>
    ensures { IfOk result (λ status. status ≡ UNUSABLE) }
{
    let lines = file_fault_lines(rt.alloc(), first, bytes, grammar, registry)?;
    print_page(rt, lines.as_str())?;
    Ok(UNUSABLE)
}

/// The faults of a file as lines of JSON.
fn file_fault_lines(
    alloc: Global,
    first: &FileFault,
    bytes: &[u8],
    grammar: &str,
    registry: &Registry,
) -> Result<String, AllocError> {
    let told = faults_of(alloc, bytes, registry, first)?;
    let mut lines = String::new(alloc);
    for one in &told {
        push_fault_line(alloc, &mut lines, &one.fault, bytes, grammar)?;
    }
    Ok(lines)
}

/// Appends the line of a fault.
fn push_fault_line(
    alloc: Global,
    lines: &mut String,
    fault: &FileFault,
    bytes: &[u8],
    grammar: &str,
) -> Result<(), AllocError> {
    let line = file_fault_line(alloc, fault, bytes, grammar)?;
    lines.push_str(line.as_str())
}

/// The line of JSON of a fault.
fn file_fault_line(
    alloc: Global,
    fault: &FileFault,
    bytes: &[u8],
    grammar: &str,
) -> Result<String, AllocError> {
    let kind = &fault.kind;
    let message = format!(in alloc; "{kind}")?;
    fault_line(
        alloc,
        grammar,
        fault.position,
        character_at(bytes, fault.position),
        code_of(kind),
        message.as_str(),
    )
}

/// The number in its line of the character at a position in a file with these bytes, counting from 1.
fn character_at(bytes: &[u8], position: Pos) -> usize {
    let mut at = Pos { line: 1, column: 1 };
    let mut character: usize = 1;
    for c in spelled_by(bytes).chars() {
        if at.line == position.line && at.column >= position.column {
            break;
        }
        at = advanced(at, c);
        character = if c == '\n' {
            1
        } else {
            character.saturating_add(1)
        };
    }
    character
}

/// The text that these bytes spell, up to the first byte that belongs to no character.
fn spelled_by(bytes: &[u8]) -> &str {
    match str::from_utf8(bytes) {
        Ok(text) => text,
        Err(error) => str::from_utf8(&bytes[..error.valid_up_to()]).unwrap_or(""),
    }
}

/// The code of a fault, F1 to F9, which its text begins with.
fn code_of(kind: &FaultKind) -> &'static str
    ensures { BeginsWithCode (kind_text kind.now) result.now }
{
    match kind {
        FaultKind::NotUtf8 => "F1",
        FaultKind::BadToken => "F2",
        FaultKind::UnexpectedToken => "F3",
        FaultKind::UnknownName => "F4",
        FaultKind::NameTwice => "F5",
        FaultKind::NoStart => "F6",
        FaultKind::BadLiteral => "F7",
        FaultKind::LimitPassed => "F8",
        FaultKind::NotAdmitted(_) => "F9",
    }
}
