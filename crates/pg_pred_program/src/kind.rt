//! The kinds of characters that the program's predicates recognise.
//!
//! Each kind has a name, a test of characters and a class. The test and the class agree on every character, so the two
//! make a predicate. `specs/Kinds.antt` says which characters are of a kind.

ghost use Rattle.std.specs.Prelude.{◌≡◌, IfOk};

use crate::categories::{
    alphanumerics, is_alphanumeric, is_letter, is_space, letters, ranged, spaces,
};
use pg_class::Class;
use std::alloc::{AllocError, Global};

/// A kind of characters. Each has a predicate.
#[derive(Clone, Copy, Debug, PartialEq, Eq)]
pub enum Kind {
    /// `0` to `9`.
    Digit,
    /// `0` to `7`.
    OctalDigit,
    /// `0` to `9`, `A` to `F` and `a` to `f`.
    HexDigit,
    /// The letters of Unicode.
    Letter,
    /// The letters and numbers of Unicode.
    Alphanumeric,
    /// The space separators of Unicode, and the control characters from the tab to the carriage return.
    Space,
}

impl Kind {
    ghost use Rattle.pg_pred_program.specs.Categories.{HasJust};
    ghost use Rattle.pg_pred_program.specs.Kinds.{is_of, kind_name};

    /// All kinds, in the order in which the manual lists them.
    pub const ALL: [Kind; 6] = [
        Kind::Digit,
        Kind::OctalDigit,
        Kind::HexDigit,
        Kind::Letter,
        Kind::Alphanumeric,
        Kind::Space,
    ];

    /// The name of its predicate.
    pub fn name(self) -> &'static str
        ensures { result.now ≡ kind_name self }
    {
        match self {
            Kind::Digit => "digit",
            Kind::OctalDigit => "octDigit",
            Kind::HexDigit => "hexDigit",
            Kind::Letter => "letter",
            Kind::Alphanumeric => "alphaNum",
            Kind::Space => "space",
        }
    }

    /// Whether a character is of this kind.
    pub fn has(self, c: char) -> bool
        ensures { result ≡ is_of self c }
    {
        match self {
            Kind::Digit => '0' <= c && c <= '9',
            Kind::OctalDigit => '0' <= c && c <= '7',
            Kind::HexDigit => c.is_ascii_hexdigit(),
            Kind::Letter => is_letter(c),
            Kind::Alphanumeric => is_alphanumeric(c),
            Kind::Space => is_space(c),
        }
    }

    /// The class of the characters of this kind.
    pub fn class(self, alloc: Global) -> Result<Class, AllocError>
        ensures { IfOk result (λ class. HasJust class (is_of self)) }
    {
        match self {
            Kind::Digit => ranged(alloc, &[('0', '9')]),
            Kind::OctalDigit => ranged(alloc, &[('0', '7')]),
            Kind::HexDigit => ranged(alloc, &[('0', '9'), ('A', 'F'), ('a', 'f')]),
            Kind::Letter => letters(alloc),
            Kind::Alphanumeric => alphanumerics(alloc),
            Kind::Space => spaces(alloc),
        }
    }
}
