//! Lines of a corpus file, and the parts of it that lines make up.
//!
//! A line has its line feed with it, which the last line of a file need not have. No text is copied: parts are slices of the file. Each part ends where a
//! line begins, or with the file.

ghost use Rattle.std.specs.Prelude.{◌≡◌, ◌==◌, ◌≤◌, length, drop};
ghost use Rattle.std.specs.List.{list_all, position_or_len};
ghost use Rattle.pg_corpus.specs.Lines.{first_line, without_feed, equals, begins_case, is_rule, is_blank, is_around, belongs, IsCut};

/// A part of a file that whole lines make up.
#[derive(Clone, Copy)]
pub(crate) enum Part {
    /// Blank lines and comments.
    Around,
    /// A text, up to a line of so many `-`.
    Between(usize),
    /// What is wanted: lines that are neither blank nor comments and begin no case.
    Wanted,
}

/// The first line, with its line feed if it has one.
pub(crate) fn first_line(bytes: &[u8]) -> &[u8]
    ensures { result.now ≡ first_line bytes.now }
{
    let before = before_feed(bytes);
    if before < bytes.len() {
        &bytes[..before + 1]
    } else {
        bytes
    }
}

/// How many bytes stand before the first line feed.
fn before_feed(bytes: &[u8]) -> usize
    ensures { result ≡ position_or_len (λ b. b == 10) bytes.now }
{
    bytes.iter().take_while(|byte| **byte != b'\n').count()
}

/// The bytes behind so many.
pub(crate) fn behind(bytes: &[u8], count: usize) -> &[u8]
    requires { count ≤ length bytes.now }
    ensures { result.now ≡ drop count bytes.now }
{
    &bytes[count..]
}

/// The bytes without the line feed at their end, if there is one.
pub(crate) fn without_feed(bytes: &[u8]) -> &[u8]
    ensures { result.now ≡ without_feed bytes.now }
{
    let Some(last) = bytes.len().checked_sub(1) else {
        return bytes;
    };
    if bytes[last] == b'\n' {
        &bytes[..last]
    } else {
        bytes
    }
}

/// How many `=` a line begins with.
#[tactic(auto, using(crate::proofs::Cutting::equals_within))]
pub(crate) fn equals(line: &[u8]) -> usize
    ensures value { result ≡ equals line.now }
    ensures within { result ≤ length line.now }
{
    line.iter().take_while(|byte| **byte == b'=').count()
}

/// Whether a line begins a case: with three or more `=`, and a blank or the line's end behind them.
pub(crate) fn begins_case(line: &[u8]) -> bool
    ensures { result ≡ begins_case line.now }
{
    let size = equals(line);
    size >= 3
        && match line.get(size) {
            Some(byte) => *byte == b' ' || *byte == b'\n',
            None => true,
        }
}

/// Whether a line has so many `-` and nothing else.
fn is_rule(size: usize, line: &[u8]) -> bool
    ensures { result ≡ is_rule size line.now }
{
    let dashes = without_feed(line);
    dashes.len() == size && are_dashes(dashes)
}

/// Whether these are `-` and nothing else.
fn are_dashes(bytes: &[u8]) -> bool
    ensures { result ≡ list_all (λ b. b == 45) bytes.now }
{
    bytes.iter().all(|byte| *byte == b'-')
}

/// Whether a line has only spaces, tabs and ends of lines.
fn is_blank(line: &[u8]) -> bool
    ensures { result ≡ is_blank line.now }
{
    line.iter().all(|byte| *byte == b' ' || (*byte == b'\t' || (*byte == b'\r' || *byte == b'\n')))
}

/// Whether a line is blank or a comment.
fn is_around(line: &[u8]) -> bool
    ensures { result ≡ is_around line.now }
{
    is_blank(line)
        || match line.first() {
            Some(byte) => *byte == b'#',
            None => false,
        }
}

/// Whether a line belongs to a part.
fn belongs(part: Part, line: &[u8]) -> bool
    ensures { result ≡ belongs part line.now }
{
    match part {
        Part::Around => is_around(line),
        Part::Between(size) => !is_rule(size, line),
        Part::Wanted => !(is_around(line) || begins_case(line)),
    }
}

/// Cuts behind the lines that belong to a part.
#[tactic(auto, using(crate::proofs::Cutting::read_none, crate::proofs::Cutting::read_more, crate::proofs::Cutting::cut_at, crate::proofs::Cutting::cut_end, crate::proofs::Cutting::read_on))]
pub(crate) fn cut<'a>(bytes: &'a [u8], part: Part) -> (&'a [u8], &'a [u8])
    ensures { IsCut part bytes.now result.0.now result.1.now }
{
    let mut read = 0;
    while read < bytes.len() {
        let line = first_line(behind(bytes, read));
        if !belongs(part, line) {
            break;
        }
        read += line.len();
    }
    bytes.split_at(read)
}
