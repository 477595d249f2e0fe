//! Where the next character of a document stands.
ghost use Rattle.std.specs.Prelude.{◌≡◌, ◌+◌, ◌^◌, ◌<◌, ◌≤◌};
ghost use Rattle.pg_server_positions.specs.Positions.{after, is_past, shown, start, width};

use crate::position::{Encoding, Position};

/// Where the next character stands, and whether a carriage return stands before it, whose line feed would begin no line of its own.
#[derive(Clone, Copy)]
pub(crate) struct Cursor {
    pub(crate) line: usize,
    pub(crate) unit: usize,
    pub(crate) after_return: bool,
}

impl Cursor {
    /// Where a document begins.
    pub(crate) fn new() -> Cursor
        ensures { result ≡ start }
    {
        Cursor {
            line: 0,
            unit: 0,
            after_return: false,
        }
    }

    /// Behind this character.
    pub(crate) fn behind(self, encoding: Encoding, c: char) -> Cursor
        requires line { self.line < 2 ^ 32 }
        requires unit { self.unit < 2 ^ 32 }
        ensures value { result ≡ after encoding self c }
        ensures lines { result.line ≤ self.line + 1 }
        ensures units { result.unit ≤ self.unit + 4 }
    {
        match c {
            '\n' => Cursor {
                line: if self.after_return {
                    self.line
                } else {
                    self.line + 1
                },
                unit: if self.after_return { self.unit } else { 0 },
                after_return: false,
            },
            '\r' => Cursor {
                line: self.line + 1,
                unit: 0,
                after_return: true,
            },
            _ => Cursor {
                line: self.line,
                unit: self.unit + width_of(encoding, c),
                after_return: false,
            },
        }
    }

    /// Its position.
    pub(crate) fn position(self) -> Position
        ensures { result ≡ shown self }
    {
        Position {
            line: self.line,
            unit: self.unit,
        }
    }

    /// Whether its position is past this one.
    pub(crate) fn is_past(self, position: Position) -> bool
        ensures { result ≡ is_past (shown self) position }
    {
        self.line > position.line || (self.line == position.line && self.unit > position.unit)
    }
}

/// How many units a character takes.
fn width_of(encoding: Encoding, c: char) -> usize
    ensures value { result ≡ width encoding c }
    ensures bound { result ≤ 4 }
{
    match encoding {
        Encoding::Utf8 => c.len_utf8(),
        Encoding::Utf16 => c.len_utf16(),
    }
}
