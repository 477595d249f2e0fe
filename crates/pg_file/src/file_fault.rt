//! The faults of a grammar file.
//!
//! If there are several, the leftmost is reported, and at one place the one with the lowest number. Faults of names and
//! of initial operators come after those of tokens. Programs print these texts. They are written by hand so that
//! contracts can speak of their bytes.

ghost use Rattle.std.specs.Prelude.{◌≡◌, Some};
ghost use Rattle.pg_file.specs.declared.file_fault.FileError.TheVariants.{Memory};
ghost use Rattle.pg_file.specs.Texts.{kind_text, fault_text, error_text};

use pg_table::AdmitFault;
use pg_text::Pos;
use std::alloc::{AllocError, AllocFailed};
use std::error::Error;
use std::fmt;

/// What is wrong with a grammar file (ours).
#[derive(Clone, Copy, Debug, PartialEq, Eq)]
pub enum FaultKind {
    /// F1: its bytes aren't UTF-8.
    NotUtf8,
    /// F2: a character that begins no token, or a literal that isn't closed on its line.
    BadToken,
    /// F3: a token where the syntax has another, a reserved word as a name, a number out of its bounds, or the end of
    /// the file inside an item.
    UnexpectedToken,
    /// F4: an unknown name of a class (above), predicate, word, rule or builder, or operators are used without an `operators` item.
    UnknownName,
    /// F5: a class with the name of a predicate, a second class, word or rule with the same name, or a second start or
    /// `operators` item.
    NameTwice,
    /// F6: there is no start, or it names no rule.
    NoStart,
    /// F7: a wrong escape, an empty literal where none may be empty, an end of a range that isn't one character, or a
    /// range that descends.
    BadLiteral,
    /// F8: the file, a name or a literal is too long, parentheses nest too deep, or there are too many items of a kind
    /// or too many nodes.
    LimitPassed,
    /// F9: an initial operator isn't admitted by those above it.
    NotAdmitted(AdmitFault),
}

impl fmt::Display for FaultKind {
    ghost output = { λ kind. Some (kind_text kind) };

    fn fmt<W: fmt::Write>(&self, f: &mut fmt::Formatter<W>) -> fmt::Result {
        match self {
            FaultKind::NotUtf8 => f.write_str("F1 not UTF-8"),
            FaultKind::BadToken => f.write_str("F2 bad token"),
            FaultKind::UnexpectedToken => f.write_str("F3 unexpected token"),
            FaultKind::UnknownName => f.write_str("F4 unknown name"),
            FaultKind::NameTwice => f.write_str("F5 name defined twice"),
            FaultKind::NoStart => f.write_str("F6 no start rule"),
            FaultKind::BadLiteral => f.write_str("F7 bad literal"),
            FaultKind::LimitPassed => f.write_str("F8 limit passed"),
            FaultKind::NotAdmitted(fault) => {
                let label = fault.label();
                write!(f, "F9 operator not admitted ({label})")
            }
        }
    }
}

/// The first fault of a grammar file, and its position.
#[derive(Clone, Copy, Debug, PartialEq, Eq)]
pub struct FileFault {
    /// What is wrong.
    pub kind: FaultKind,
    /// The position of the token or character at fault.
    pub position: Pos,
}

impl fmt::Display for FileFault {
    ghost output = { λ fault. Some (fault_text fault) };

    fn fmt<W: fmt::Write>(&self, f: &mut fmt::Formatter<W>) -> fmt::Result {
        let Pos { line, column } = self.position;
        let kind = self.kind;
        write!(f, "{line}:{column}: {kind}")
    }
}

/// Why a grammar file gave no grammar.
#[derive(Debug, Drop)]
pub enum FileError {
    /// Something is wrong with it.
    Fault(FileFault),
    /// Memory ran out.
    Memory,
}

impl fmt::Display for FileError {
    ghost output = { λ error. Some (error_text error) };

    fn fmt<W: fmt::Write>(&self, f: &mut fmt::Formatter<W>) -> fmt::Result {
        match self {
            FileError::Fault(fault) => write!(f, "{fault}"),
            FileError::Memory => f.write_str("out of memory"),
        }
    }
}

impl Error for FileError {}

impl From<AllocError> for FileError {
    ghost from_gives = { λ _ e. e ≡ Memory };

    fn from(_e: AllocError) -> FileError {
        FileError::Memory
    }
}

impl<T: Drop> From<AllocFailed<T>> for FileError {
    ghost from_gives = { λ _ e. e ≡ Memory };

    fn from(_e: AllocFailed<T>) -> FileError {
        FileError::Memory
    }
}
