//! Why a run of a grammar over a text gave no result.
//!
//! A `BenchFault` is all that a run can end with besides its result. The report decides what of it is printed, and with which status the program ends. The
//! labels are short so that scripts can tell the faults apart: F a grammar file's, X what can't be read, P the text's, V a certificate's, W the writing.

ghost use Rattle.std.specs.Prelude.{Some};
ghost use Rattle.pg_bench_grammar.specs.Texts.{fault_text};

use pg_file::FileFault;
use pg_message::ParseError;
use pg_predict::Refused;
use std::error::Error;
use std::fmt;

/// Why a run ended without its result.
///
/// The faults are judged in the order of the variants from `File` to `Writer`, and the run ends with the first that holds. Up to `ParseError` nothing has
/// been written. `Memory` can come at any step, but always before the first byte is written.
#[derive(Debug)]
pub enum BenchFault {
    /// The file isn't a grammar file. The text's reader hasn't been asked yet.
    File(FileFault),
    /// The grammar isn't accepted. It comes with all its findings, at least one. The text's reader hasn't been asked yet.
    Refused(Refused),
    /// The text's reader answered an error, or gave over 4,194,304 bytes, more than the longest text can have.
    Reader,
    /// The text's bytes aren't UTF-8. It comes before `TooLong` if both hold.
    NotUtf8,
    /// The text has over 1,048,576 characters.
    TooLong,
    /// The bytes that should be a trail's JSON aren't.
    NotATrail,
    /// The certificate doesn't show that the grammar is accepted; this is the reason, as it is printed.
    NotVerified(String),
    /// The grammar doesn't derive the text; this is the error of its start rule, or of the end of the text that should follow it.
    ParseError(ParseError),
    /// The writer answered an error or accepted nothing. A prefix of the result may have been written.
    Writer,
    /// Memory ran out.
    Memory,
}

// Written out, so that the crates above needn't prove again how each part is dropped.
impl Drop for BenchFault {
    fn drop(self) {
        match self {
            BenchFault::File(fault) => drop(fault),
            BenchFault::Refused(refused) => drop(refused),
            BenchFault::NotVerified(verdict) => drop(verdict),
            BenchFault::ParseError(error) => drop(error),
            BenchFault::Reader
            | BenchFault::NotUtf8
            | BenchFault::TooLong
            | BenchFault::NotATrail
            | BenchFault::Writer
            | BenchFault::Memory => {}
        }
    }
}

impl fmt::Display for BenchFault {
    ghost output = { λ fault. Some (fault_text fault) };

    fn fmt<W: fmt::Write>(&self, f: &mut fmt::Formatter<W>) -> fmt::Result {
        match self {
            BenchFault::File(fault) => write!(f, "{fault}"),
            BenchFault::Refused(_) => f.write_str("not accepted"),
            BenchFault::Reader => f.write_str("X1 cannot read"),
            BenchFault::NotUtf8 => f.write_str("P1 not UTF-8"),
            BenchFault::TooLong => f.write_str("P2 text too long"),
            BenchFault::NotATrail => f.write_str("not a trail"),
            BenchFault::NotVerified(verdict) => f.write_str(verdict),
            BenchFault::ParseError(_) => f.write_str("no parse"),
            BenchFault::Writer => f.write_str("W1 cannot write"),
            BenchFault::Memory => f.write_str("out of memory"),
        }
    }
}

impl Error for BenchFault {}
