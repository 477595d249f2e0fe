//! Characters in quotes, with the escapes of a grammar file.

use std::alloc::{AllocError, Global};

/// Appends the characters in quotes. Fails where memory runs out.
pub fn push_quoted(
    alloc: Global,
    page: &mut String,
    characters: &[char],
) -> Result<(), AllocError> {
    page.push_str("\"")?;
    for c in characters {
        push_escaped(alloc, page, *c)?;
    }
    page.push_str("\"")
}

/// Appends a character as it is written in a literal of a grammar file.
fn push_escaped(alloc: Global, page: &mut String, c: char) -> Result<(), AllocError> {
    match c {
        '"' => page.push_str("\\\""),
        '\\' => page.push_str("\\\\"),
        '\n' => page.push_str("\\n"),
        '\t' => page.push_str("\\t"),
        '\r' => page.push_str("\\r"),
        ' '..='~' => page.push(c),
        _ => push_code(alloc, page, c),
    }
}

/// Appends the escape with a character's number.
fn push_code(alloc: Global, page: &mut String, c: char) -> Result<(), AllocError> {
    let code = u32::from(c);
    let escape = format!(in alloc; "\\u{{{code:x}}}")?;
    page.push_str(escape.as_str())
}
