//! The line and the column of each place of a text.

use pg_text::{Pos, advanced};
use std::alloc::{AllocError, Global};

/// The position of each place of a text and of its end, found in one pass. Each agrees with `pg_text`'s `position_in`.
pub fn positions(alloc: Global, text: &[char]) -> Result<Vec<Pos>, AllocError> {
    let mut positions = Vec::new(alloc);
    let mut position = Pos { line: 1, column: 1 };
    positions.push(position)?;
    for c in text {
        position = advanced(position, *c);
        positions.push(position)?;
    }
    Ok(positions)
}
