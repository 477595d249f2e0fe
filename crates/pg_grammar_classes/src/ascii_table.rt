//! Which of the 128 ASCII characters a class has.

ghost use Rattle.std.specs.Prelude.{◌≡◌, ◌<◌, false};
ghost use Rattle.std.specs.List.{slice_index_or};
ghost use Rattle.pg_grammar_classes.specs.Sets.{IsAsciiTable};

use pg_class::Class;
use std::marker::Model;

/// How many ASCII characters there are.
pub(crate) const ASCII_COUNT: usize = 128;

/// A table of the ASCII characters, seen as the answer for each code.
#[derive(Drop)]
pub(crate) struct AsciiTable {
    answers: [bool; ASCII_COUNT],
}

impl Model for AsciiTable {
    ghost use Rattle.std.specs.Prelude.{Bool, List};

    ghost Value = { List Bool };

    ghost view = { λ table. table.answers };
}

impl AsciiTable {
    /// The ASCII characters of the class.
    pub(crate) fn of(class: &Class) -> AsciiTable
        ensures { IsAsciiTable class.now result }
    {
        let mut answers = [false; ASCII_COUNT];
        for code in 0..128u8 {
            answers[usize::from(code)] = class.has(char::from(code));
        }
        AsciiTable { answers }
    }

    /// Whether the character with this code is in the table.
    #[inline]
    pub(crate) fn has(&self, code: usize) -> bool
        requires { code < 128 }
        ensures { result ≡ slice_index_or self.now code false }
    {
        self.answers[code]
    }
}
