//! The place of a position.
ghost use Rattle.std.specs.Prelude.{◌≡◌, ◌^◌, ◌<◌, length, if◌then◌else◌};
ghost use Rattle.pg_server_positions.specs.Positions.{is_past, shown, IsPlaceOf};

use crate::cursor::Cursor;
use crate::position::{Encoding, Position};

/// The last place of a document that isn't past a position (the protocol's, 3.17): the place of that position, the end of its line if it is past that, the
/// place before the character in which it is, or the end of the document if it is past that.
pub fn place_of(text: &[char], encoding: Encoding, position: Position) -> usize
    requires { length text.now < 2 ^ 28 }
    ensures { IsPlaceOf encoding text.now position result }
{
    let mut found = 0;
    let mut cursor = Cursor::new();
    for (place, c) in text.iter().enumerate() {
        cursor = cursor.behind(encoding, *c);
        found = reached(cursor, position, found, place + 1);
    }
    found
}

/// The next place, if its position isn't past this one; else the place that was found before it.
fn reached(cursor: Cursor, position: Position, found: usize, next: usize) -> usize
    ensures { result ≡ (if is_past (shown cursor) position then found else next) }
{
    if cursor.is_past(position) {
        found
    } else {
        next
    }
}
