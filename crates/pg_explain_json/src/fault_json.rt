//! The line of a fault.

use crate::fields::{push_number, push_text};
use pg_text::Pos;
use std::alloc::{AllocError, Global};

/// The JSON line of a fault in the grammar file with this name: its place, its code, the message, and which character of its line it is at (ours). Fails
/// where memory runs out.
pub fn fault_line(
    alloc: Global,
    name: &str,
    position: Pos,
    character: usize,
    code: &str,
    message: &str,
) -> Result<String, AllocError> {
    let mut line = String::new(alloc);
    push_text(alloc, &mut line, "{\"file\":", name)?;
    push_number(alloc, &mut line, ",\"line\":", position.line as usize)?;
    push_number(alloc, &mut line, ",\"column\":", position.column as usize)?;
    push_text(alloc, &mut line, ",\"code\":", code)?;
    push_text(alloc, &mut line, ",\"message\":", message)?;
    push_number(alloc, &mut line, ",\"character\":", character)?;
    line.push_str("}\n")?;
    Ok(line)
}
