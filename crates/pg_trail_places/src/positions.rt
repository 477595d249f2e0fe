//! The line and the column of each place of a text.

ghost use Rattle.std.specs.Prelude.{◌≡◌, IfOk, length, ◌+◌};
ghost use Rattle.pg_text.specs.Position.{position_of};
ghost use Rattle.pg_trail_places.specs.Positions.{positions_of};

use pg_text::{Pos, Text, advanced};
use std::alloc::{AllocError, Global};

/// The position of each place of a text and of its end, found in one pass.
pub(crate) fn positions(alloc: Global, text: &Text) -> Result<Vec<Pos>, AllocError>
    ensures { IfOk result (λ all. all.items ≡ positions_of text.now) }
{
    let mut positions = Vec::new(alloc);
    let mut position = Pos { line: 1, column: 1 };
    positions.push(position)?;
    for c in text.characters() {
        position = advanced(position, *c);
        positions.push(position)?;
    }
    Ok(positions)
}

/// The position of a place of the text whose positions these are. A place after its end has that of the end.
pub(crate) fn position_at(positions: &[Pos], text: &Text, place: u32) -> Pos
    requires { positions.now ≡ positions_of text.now }
    ensures { result ≡ position_of text.now place }
{
    let place = place as usize;
    if place <= text.len() {
        positions[place]
    } else {
        positions[text.len()]
    }
}
