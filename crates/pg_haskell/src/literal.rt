//! Characters and strings as Haskell reads them.

use itoa::Buffer;
use std::alloc::AllocError;

/// Pushes a string in double quotes. A number that a digit follows ends with `\&`.
pub(crate) fn push_string(page: &mut String, characters: &[char]) -> Result<(), AllocError> {
    page.push('"')?;
    for (number, c) in characters.iter().enumerate() {
        push_in_quotes(page, *c, '"')?;
        let next = characters.get(number.saturating_add(1));
        if is_numbered(*c) && next.is_some_and(|c| c.is_ascii_digit()) {
            page.push_str("\\&")?;
        }
    }
    page.push('"')
}

/// Whether a character is written as a number.
fn is_numbered(c: char) -> bool {
    !matches!(c, '\n' | '\t' | ' '..='~')
}

/// Pushes a character in single quotes.
pub(crate) fn push_character(page: &mut String, c: char) -> Result<(), AllocError> {
    page.push('\'')?;
    push_in_quotes(page, c, '\'')?;
    page.push('\'')
}

/// Pushes a character as it stands between such quotes. One that isn't plain ASCII is a number.
fn push_in_quotes(page: &mut String, c: char, quote: char) -> Result<(), AllocError> {
    match c {
        '\n' => page.push_str("\\n"),
        '\t' => page.push_str("\\t"),
        '\\' => page.push_str("\\\\"),
        ' '..='~' => {
            if c == quote {
                page.push('\\')?;
            }
            page.push(c)
        }
        _ => push_number(page, c),
    }
}

/// Pushes a character as its number.
fn push_number(page: &mut String, c: char) -> Result<(), AllocError> {
    let mut buffer = Buffer::new();
    page.push('\\')?;
    page.push_str(buffer.format(c as u32))
}
