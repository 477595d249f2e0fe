//! Printing to standard error, and the verdict on a certificate to standard output, with the exit status that belongs to it.

ghost use Rattle.std.specs.Prelude.{◌≡◌, ◌⊎◌, IfOk};
ghost use Rattle.pg_pred.specs.Offer.{offer_of};
ghost use Rattle.pg_report.specs.Status.{status_of, status_of_verdict, IsLoading};

use crate::handle::Handle;
use crate::reporting::{Names, status, write_report};
use pg_bench_grammar::{AcceptedGrammar, BenchFault, accepted_of};
use pg_pred::Registry;
use pg_tree::{Meter, WriteFault, write_bytes};
use std::alloc::AllocError;
use std::fmt::Display;
use std::io;
use std::io::Write;

/// The exit status if words or files can't be used.
pub const UNUSABLE: u8 = 2;

/// Prints the report of a fault, as far as standard error accepts it, and answers its status. A quiet handle doesn't print faults with status 1, but those
/// with the statuses 2 and 3.
pub fn print_report<R: AllocGlobal + Eprint>(
    rt: &Handle<R>,
    fault: BenchFault,
    names: Names,
) -> Result<u8, AllocError>
    ensures { IfOk result (λ status. status ≡ status_of fault) }
{
    let printed = print_fault(rt, &fault, names);
    drop(fault);
    printed
}

/// As `print_report`, for a borrowed fault.
pub(crate) fn print_fault<R: AllocGlobal + Eprint>(
    rt: &Handle<R>,
    fault: &BenchFault,
    names: Names,
) -> Result<u8, AllocError>
    ensures { IfOk result (λ status. status ≡ status_of fault.now) }
{
    let exit_status = status(fault);
    if rt.is_quiet && exit_status < UNUSABLE {
        return Ok(exit_status);
    }
    let mut writer = Meter::new(ErrorWriter { rt: rt.rt });
    match write_report(rt.alloc(), fault, names, &mut writer) {
        Ok(()) | Err(WriteFault::Writer) => Ok(exit_status),
        Err(WriteFault::Memory) => Err(AllocError),
    }
}

/// The grammar that these bytes spell, loaded. If it isn't accepted, prints the reason as far as standard error accepts it, and answers the status.
pub fn loaded<R: AllocGlobal + Eprint>(
    rt: &Handle<R>,
    bytes: &[u8],
    grammar: &str,
    registry: &Registry,
) -> Result<Result<AcceptedGrammar, u8>, AllocError>
    ensures { IfOk result (IsLoading (offer_of registry.now) bytes.now) }
{
    match accepted_of(rt.alloc(), bytes, registry) {
        Ok(accepted) => Ok(Ok(accepted)),
        Err(fault) => Ok(Err(print_report(rt, fault, Names::of_grammar(grammar))?)),
    }
}

/// Prints the verdict on a certificate to standard output: `accepted`, or why it doesn't show that the grammar is accepted. Prints the report of any other
/// fault.
pub fn print_verdict<R: AllocGlobal + Print + Eprint>(
    rt: &Handle<R>,
    verdict: Result<(), BenchFault>,
    names: Names,
) -> Result<u8, AllocError>
    ensures { IfOk result (λ status. (status ≡ UNUSABLE) ⊎ (status ≡ status_of_verdict verdict)) }
{
    match verdict {
        Ok(()) => print_page(rt, "accepted\n"),
        Err(fault) => {
            let printed = print_refuted(rt, &fault, names);
            drop(fault);
            printed
        }
    }
}

/// Prints why a certificate doesn't show that the grammar is accepted.
fn print_refuted<R: AllocGlobal + Print + Eprint>(
    rt: &Handle<R>,
    fault: &BenchFault,
    names: Names,
) -> Result<u8, AllocError>
    ensures { IfOk result (λ status. (status ≡ UNUSABLE) ⊎ (status ≡ status_of fault.now)) }
{
    match fault {
        BenchFault::NotVerified(_) => print_not_verified(rt, fault, names),
        BenchFault::File(_)
        | BenchFault::Refused(_)
        | BenchFault::Reader
        | BenchFault::NotUtf8
        | BenchFault::TooLong
        | BenchFault::NotATrail
        | BenchFault::ParseError(_)
        | BenchFault::Writer
        | BenchFault::Memory => print_fault(rt, fault, names),
    }
}

/// Prints the report of a fault to standard output.
fn print_not_verified<R: AllocGlobal + Print + Eprint>(
    rt: &Handle<R>,
    fault: &BenchFault,
    names: Names,
) -> Result<u8, AllocError>
    ensures { IfOk result (λ status. (status ≡ UNUSABLE) ⊎ (status ≡ status_of fault.now)) }
{
    let mut writer = Meter::new(io::writer(rt));
    match write_report(rt.alloc(), fault, names, &mut writer) {
        Ok(()) => Ok(status(fault)),
        Err(WriteFault::Writer) => print_fault(rt, &BenchFault::Writer, names),
        Err(WriteFault::Memory) => Err(AllocError),
    }
}

/// Standard error as a writer of text. It accepts all that it is given, or fails.
#[derive(Drop)]
pub struct ErrorWriter<'a, R> {
    /// The handle that prints.
    pub rt: &'a R,
}

impl<R: Eprint> Write for ErrorWriter<'_, R> {
    fn write(&mut self, buf: &[u8]) -> io::Result<usize> {
        match str::from_utf8(buf) {
            Ok(text) => self.rt.eprint(text)?,
            Err(_) => return Err(io::Error::from(io::ErrorKind::InvalidData)),
        }
        Ok(buf.len())
    }

    fn flush(&mut self) -> io::Result<()> {
        Ok(())
    }
}

/// Says that a file can't be read, and answers the status.
pub(crate) fn cannot_read<R: Eprint>(rt: &R, name: &str) -> u8
    ensures { result ≡ UNUSABLE }
{
    refuse(rt, format_args!("{name}: cannot read"))
}

/// Says that a grammar has no such rule or node, and answers the status.
pub(crate) fn not_there<R: Eprint>(rt: &R, name: &str, asked: &str) -> u8
    ensures { result ≡ UNUSABLE }
{
    refuse(rt, format_args!("{name}: there is no rule or node {asked}"))
}

/// Says that standard output can't be written, and answers the status.
pub fn cannot_write<R: Eprint>(rt: &R) -> u8
    ensures { result ≡ UNUSABLE }
{
    refuse(rt, BenchFault::Writer)
}

/// Prints a page to standard output, and answers the status.
pub fn print_page<R: AllocGlobal + Print + Eprint>(rt: &R, page: &str) -> Result<u8, AllocError>
    ensures { IfOk result (λ status. (status ≡ UNUSABLE) ⊎ (status ≡ 0)) }
{
    let mut writer = Meter::new(io::writer(rt));
    match write_bytes(page.as_bytes(), &mut writer) {
        Ok(()) => Ok(0),
        Err(WriteFault::Writer) => Ok(cannot_write(rt)),
        Err(WriteFault::Memory) => Err(AllocError),
    }
}

/// Says why nothing can be done, and answers the status.
pub fn refuse<R: Eprint, M: Display + Drop>(rt: &R, message: M) -> u8
    ensures { result ≡ UNUSABLE }
{
    say(rt, message);
    UNUSABLE
}

/// Prints a line to standard error, as far as it is accepted there.
pub fn say<R: Eprint, M: Display + Drop>(rt: &R, message: M) {
    let _ = rt.eprintln(message);
}

/// Prints a text to standard error, as far as it is accepted there.
pub(crate) fn put<R: Eprint>(rt: &R, text: &str) {
    let _ = rt.eprint(text);
}
