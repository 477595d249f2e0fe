//! What a header says.

/// The name of the header's line that says how many bytes the body has.
const CONTENT_LENGTH: &[u8] = b"content-length";

/// How many bytes the body has, if these bytes are a header's lines, each with its CR and LF. `None` if a line isn't a name, a colon and a value, and if
/// none or more than one says a length. A name may be in any case. Other lines, as `Content-Type`, are passed over.
pub(crate) fn body_length(header: &[u8]) -> Option<usize> {
    let mut rest = header;
    let mut length = None;
    for _ in 0..header.len() {
        if rest.is_empty() {
            break;
        }
        let (line, after) = first_line(rest)?;
        rest = after;
        length = with_line(length, line)?;
    }
    length
}

/// The length that is known after this line, `None` if the line can't stand in a header.
fn with_line(length: Option<usize>, line: &[u8]) -> Option<Option<usize>> {
    let colon = line.iter().position(|byte| *byte == b':')?;
    let (name, value) = line.split_at(colon);
    if !is_length(name.trim_ascii()) {
        return Some(length);
    }
    if length.is_some() {
        return None;
    }
    let said = number(value.get(1..)?.trim_ascii())?;
    Some(Some(said))
}

/// The bytes before the first LF, without the CR before it, and those after it. `None` if there is no LF.
fn first_line(bytes: &[u8]) -> Option<(&[u8], &[u8])> {
    let end = bytes.iter().position(|byte| *byte == b'\n')?;
    let after = bytes.get(end.saturating_add(1)..)?;
    let line = bytes.get(..end)?.strip_suffix(b"\r")?;
    Some((line, after))
}

/// Whether a name is that of the line with the length.
fn is_length(name: &[u8]) -> bool {
    name.len() == CONTENT_LENGTH.len()
        && name
            .iter()
            .zip(CONTENT_LENGTH)
            .all(|(one, other)| one.to_ascii_lowercase() == *other)
}

/// The number that decimal digits spell, and nothing else.
fn number(digits: &[u8]) -> Option<usize> {
    if !digits.iter().all(u8::is_ascii_digit) {
        return None;
    }
    str::from_utf8(digits).ok()?.parse::<usize>().ok()
}
