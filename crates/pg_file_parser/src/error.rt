//! Why the items of a file couldn't be read.
//!
//! The leftmost fault is reported.

ghost use Rattle.std.specs.Prelude.{◌≡◌};
ghost use Rattle.pg_file_parser.specs.declared.error.SyntaxError.TheVariants.{Memory};

use std::alloc::{AllocError, AllocFailed};

/// What can be wrong with the tokens of a file.
#[derive(Clone, Copy, Debug)]
pub enum SyntaxFault {
    /// A token where the syntax has another, or a bad token; a reserved word as a name; a number out of its bounds; or the end of the file inside an item.
    UnexpectedToken,
    /// A wrong escape, an empty literal where none may be empty, an end of a range that isn't one character, or a range that descends.
    BadLiteral,
    /// A name or a literal is too long, parentheses nest too deep, or there are too many items of a kind or too many nodes.
    LimitPassed,
}

/// Why items weren't read.
#[derive(Debug, Drop)]
pub enum SyntaxError {
    /// Memory ran out.
    Memory,
    /// A fault of the tokens, and how many characters stand before it; `None` stands for the end of the file.
    Fault(SyntaxFault, Option<usize>),
}

impl From<AllocError> for SyntaxError {
    ghost from_gives = { λ _ e. e ≡ Memory };

    fn from(_e: AllocError) -> SyntaxError {
        SyntaxError::Memory
    }
}

impl<T: Drop> From<AllocFailed<T>> for SyntaxError {
    ghost from_gives = { λ _ e. e ≡ Memory };

    fn from(_e: AllocFailed<T>) -> SyntaxError {
        SyntaxError::Memory
    }
}
