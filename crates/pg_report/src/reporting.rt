//! The report of a fault, and its exit status.
//!
//! The report of a fault of a file begins with the file's name as the caller gave it, so that an editor can jump there. `printing.rt` prints reports to
//! standard error.

ghost use Rattle.std.specs.Prelude.{◌≡◌, ◌++◌, true, false, IfOk, OnOk, IsErrOf};
ghost use Rattle.std.specs.String.{string_bytes};
ghost use Rattle.std.specs.Io.KnownBytes.{Appends};
ghost use Rattle.pg_tree.specs.Bytes.{AppendsPrefix};
ghost use Rattle.pg_report.specs.Status.{status_of};
ghost use Rattle.pg_report.specs.Texts.{front_of, line_of, text_of, report_of, names_of};

use pg_bench_grammar::BenchFault;
use pg_message::render;
use pg_tree::{Meter, WriteFault, write_bytes};
use std::alloc::{AllocError, Global};
use std::io::Write;

/// The names of the files of a run, as the caller gave them; empty for a file that the run doesn't have.
#[derive(Clone, Copy)]
pub struct Names<'a> {
    /// The name of the grammar file.
    pub grammar: &'a str,
    /// The name of the text.
    pub text: &'a str,
    /// The name of the file with the trail.
    pub trail: &'a str,
}

impl<'a> Names<'a> {
    /// The name of a grammar file that is read alone.
    pub fn of_grammar(grammar: &'a str) -> Names<'a> {
        Names::of_text(grammar, "")
    }

    /// The names of a grammar file and of a text.
    pub fn of_text(grammar: &'a str, text: &'a str) -> Names<'a> {
        Names {
            grammar,
            text,
            trail: "",
        }
    }
}

/// Writes the report of a fault in a run over files with these names: a line for each finding of a refused grammar, a parse error as Text.Parsec prints it
/// but for the four differences in docs/PARSEC.md, and one line for any other fault. Fails if the writer fails or memory runs out.
///
/// Memory runs out before the first byte, or not at all.
pub fn write_report<W: Write>(
    alloc: Global,
    fault: &BenchFault,
    names: Names,
    writer: &mut Meter<W>,
) -> Result<(), WriteFault>
    requires { writer.old.failed ≡ false }
    ensures ok { OnOk result (Appends (W.contents writer.old.inner) (W.contents writer.new.inner) (report_of fault.now (names_of names.entry))) }
    ensures stays { OnOk result (writer.new.failed ≡ false) }
    ensures prefix { IsErrOf result WriteFault.Writer →
        AppendsPrefix (W.contents writer.old.inner) (W.contents writer.new.inner) (report_of fault.now (names_of names.entry)) }
    ensures failed { IsErrOf result WriteFault.Writer → writer.new.failed ≡ true }
    ensures memory { IsErrOf result WriteFault.Memory → writer.new ≡ writer.old }
{
    match fault {
        BenchFault::Refused(refused) => refused.write_findings(alloc, writer),
        BenchFault::File(_)
        | BenchFault::Reader
        | BenchFault::NotUtf8
        | BenchFault::TooLong
        | BenchFault::NotATrail
        | BenchFault::NotVerified(_)
        | BenchFault::ParseError(_)
        | BenchFault::Writer
        | BenchFault::Memory => write_text(alloc, fault, names, writer),
    }
}

/// Writes the text of a fault.
fn write_text<W: Write>(
    alloc: Global,
    fault: &BenchFault,
    names: Names,
    writer: &mut Meter<W>,
) -> Result<(), WriteFault>
    requires { writer.old.failed ≡ false }
    ensures ok { OnOk result (Appends (W.contents writer.old.inner) (W.contents writer.new.inner) (text_of fault.now (names_of names.entry))) }
    ensures stays { OnOk result (writer.new.failed ≡ false) }
    ensures prefix { IsErrOf result WriteFault.Writer →
        AppendsPrefix (W.contents writer.old.inner) (W.contents writer.new.inner) (text_of fault.now (names_of names.entry)) }
    ensures failed { IsErrOf result WriteFault.Writer → writer.new.failed ≡ true }
    ensures memory { IsErrOf result WriteFault.Memory → writer.new ≡ writer.old }
{
    match said_of(alloc, fault, names) {
        Ok(text) => write_bytes(text.as_bytes(), writer),
        Err(_) => Err(WriteFault::Memory),
    }
}

/// The report of a fault that is made at once: a parse error as it is printed for the text of the run, or the line of any other fault.
pub fn said_of(alloc: Global, fault: &BenchFault, names: Names) -> Result<String, AllocError>
    ensures { IfOk result (λ text. string_bytes text ≡ text_of fault.now (names_of names.entry)) }
{
    match fault {
        BenchFault::ParseError(error) => render(alloc, error, names.text),
        BenchFault::File(_)
        | BenchFault::Refused(_)
        | BenchFault::Reader
        | BenchFault::NotUtf8
        | BenchFault::TooLong
        | BenchFault::NotATrail
        | BenchFault::NotVerified(_)
        | BenchFault::Writer
        | BenchFault::Memory => line(alloc, fault, names),
    }
}

/// The exit status of a fault.
pub fn status(fault: &BenchFault) -> u8
    ensures { result ≡ status_of fault.now }
{
    match fault {
        BenchFault::Refused(_) | BenchFault::NotVerified(_) | BenchFault::ParseError(_) => 1,
        BenchFault::File(_)
        | BenchFault::Reader
        | BenchFault::NotUtf8
        | BenchFault::TooLong
        | BenchFault::NotATrail
        | BenchFault::Writer => 2,
        BenchFault::Memory => 3,
    }
}

/// The line of a fault, after the name of the file that it is about, if it is about one.
fn line(alloc: Global, fault: &BenchFault, names: Names) -> Result<String, AllocError>
    ensures { IfOk result (λ line. string_bytes line ≡ line_of fault.now (names_of names.entry)) }
{
    let (name, mark) = front(fault, names);
    let line = format!(in alloc; "{name}{mark}{fault}\n")?;
    Ok(line)
}

/// The name of the file that a fault is about, and the mark after it; both are empty if it is about none.
fn front<'a>(fault: &BenchFault, names: Names<'a>) -> (&'a str, &'static str)
    ensures { result.0.now ++ result.1.now ≡ front_of fault.now (names_of names.entry) }
{
    match fault {
        BenchFault::File(_) => (names.grammar, ":"),
        BenchFault::Refused(_) => (names.grammar, ": "),
        BenchFault::Reader
        | BenchFault::NotUtf8
        | BenchFault::TooLong
        | BenchFault::ParseError(_) => (names.text, ": "),
        BenchFault::NotATrail => (names.trail, ": "),
        BenchFault::NotVerified(_) | BenchFault::Writer | BenchFault::Memory => ("", ""),
    }
}

#[cfg(test)]
mod tests;
