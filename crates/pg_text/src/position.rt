//! Lines and columns, as an editor of the text shows them.
//!
//! The rule is that of Text.Parsec.Pos: a line feed begins the next line, a tab goes on to the next column that is one
//! more than a multiple of 8, and every other character takes one column. Places become positions only for a message,
//! so each time the text is read from its start.
ghost use Rattle.std.specs.Prelude.{◌≡◌, ◌+◌, ◌^◌, ◌<◌, ◌≤◌, length};
ghost use Rattle.pg_text.specs.Position.{advance, position_of};

/// A line and a column, both counted from 1. The column counts characters, and a tab as several.
#[derive(Clone, Copy, Debug, PartialEq, Eq)]
pub struct Pos {
    pub line: u32,
    pub column: u32,
}

/// The position of a place: where the next character would stand after those before it. A place after the last
/// character is allowed; an early end of input is reported there.
pub fn position_in(characters: &[char], place: usize) -> Pos
    requires within { place ≤ length characters.now }
    requires fits { place < 2 ^ 28 }
    ensures { result ≡ position_of characters.now place }
{
    let mut position = Pos { line: 1, column: 1 };
    for c in &characters[..place] {
        position = advanced(position, *c);
    }
    position
}

/// The position after a character that stands at this one. A line or column that can't be counted further stays.
pub fn advanced(position: Pos, c: char) -> Pos
    ensures value { position.line < 2 ^ 31 → position.column < 2 ^ 31 → result ≡ advance position c }
    ensures line { result.line ≤ position.line + 1 }
    ensures column { result.column ≤ position.column + 8 }
{
    let Pos { line, column } = position;
    match c {
        '\n' => Pos {
            line: line.saturating_add(1),
            column: 1,
        },
        '\t' => Pos {
            line,
            column: column.saturating_add(8 - column.saturating_sub(1) % 8),
        },
        _ => Pos {
            line,
            column: column.saturating_add(1),
        },
    }
}
