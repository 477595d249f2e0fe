//! The positions of all places of a document.
ghost use Rattle.std.specs.Prelude.{◌^◌, ◌<◌, length, IfOk};
ghost use Rattle.pg_server_positions.specs.Positions.{ArePositions};

use crate::cursor::Cursor;
use crate::position::{Encoding, Position};
use std::alloc::{AllocError, Global};

/// The position of each place of a document, the end among them, in the order of places (the protocol's, 3.17). Fails where memory runs out.
pub fn positions_of(
    alloc: Global,
    text: &[char],
    encoding: Encoding,
) -> Result<Vec<Position>, AllocError>
    requires { length text.now < 2 ^ 28 }
    ensures { IfOk result (λ found. ArePositions encoding text.now found.items) }
{
    let mut found = Vec::new(alloc);
    let mut cursor = Cursor::new();
    for c in text {
        found.push(cursor.position())?;
        cursor = cursor.behind(encoding, *c);
    }
    found.push(cursor.position())?;
    Ok(found)
}
