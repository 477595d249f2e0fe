//! The text that was read, in quotes.

use pg_text_excerpt::is_shown;
use std::alloc::{AllocError, Global};

/// The greatest number of characters that are shown whole.
const MOST: usize = 30;

/// How many of the first and of the last characters are shown of a longer text.
const ENDS: usize = 13;

/// Pushes the characters in quotes; of a long text only the first and the last.
pub(crate) fn push_taken(
    alloc: Global,
    page: &mut String,
    taken: &[char],
) -> Result<(), AllocError> {
    if taken.len() <= MOST {
        return push_quoted(alloc, page, taken);
    }
    push_quoted(alloc, page, &taken[..ENDS])?;
    page.push_str(" .. ")?;
    push_quoted(alloc, page, &taken[taken.len() - ENDS..])
}

fn push_quoted(alloc: Global, page: &mut String, characters: &[char]) -> Result<(), AllocError> {
    page.push_str("\"")?;
    for c in characters {
        push_escaped(alloc, page, *c)?;
    }
    page.push_str("\"")
}

/// Pushes a character as a literal in a grammar file has it.
fn push_escaped(alloc: Global, page: &mut String, c: char) -> Result<(), AllocError> {
    match c {
        '"' => page.push_str("\\\""),
        '\\' => page.push_str("\\\\"),
        '\n' => page.push_str("\\n"),
        '\t' => page.push_str("\\t"),
        '\r' => page.push_str("\\r"),
        _ if is_shown(c) => page.push(c),
        _ => push_code(alloc, page, c),
    }
}

/// Pushes the escape of a character's number.
fn push_code(alloc: Global, page: &mut String, c: char) -> Result<(), AllocError> {
    let code = u32::from(c);
    let escape = format!(in alloc; "\\u{{{code:x}}}")?;
    page.push_str(escape.as_str())
}
