//! What a case wants, told apart.

ghost use Rattle.std.specs.Prelude.{◌≡◌, ◌-◌, length, slice_get, if◌then◌else◌};
ghost use Rattle.std.specs.List.{list_all};
ghost use Rattle.std.specs.Option.{option_copied};
ghost use Rattle.std.specs.Str.{bytes_eq};
ghost use Rattle.pg_corpus.specs.Lines.{lines, belongs, ends_with_text, can_be_wanted};
ghost use Rattle.pg_corpus.specs.Wanted.{shown, kind_of, error_lines, begins_json, json, outline};

use crate::lines::{Part, cut};

/// What is wanted of a text (ours).
#[derive(Clone, Copy)]
pub enum Wanted<'a> {
    /// `accepted`: it is parsed, to whatever.
    Accepted,
    /// `error`: it isn't parsed. The lines of the error, if any are given; else there are none, and any error will do.
    Error(&'a [u8]),
    /// A forest in JSON, which begins with `[`.
    Json(&'a [u8]),
    /// The outline of a forest.
    Outline(&'a [u8]),
}

/// Tells apart what is wanted by how it begins.
pub fn told_apart<'a>(wanted: &'a [u8]) -> Wanted<'a>
    ensures { shown result ≡ kind_of wanted.now }
{
    if is(wanted, b"accepted") {
        return Wanted::Accepted;
    }
    if is(wanted, b"error") {
        return Wanted::Error(&[]);
    }
    match error_lines(wanted) {
        Some(lines) => Wanted::Error(lines),
        None => tree(wanted),
    }
}

/// JSON or an outline.
fn tree<'a>(wanted: &'a [u8]) -> Wanted<'a>
    ensures { shown result ≡ (if begins_json (slice_get wanted.now 0) then json wanted.now else outline wanted.now) }
{
    match wanted.first() {
        Some(b'[') => Wanted::Json(wanted),
        Some(_) | None => Wanted::Outline(wanted),
    }
}

/// The lines behind a first line `error`, if there are any.
fn error_lines<'a>(wanted: &'a [u8]) -> Option<&'a [u8]>
    ensures { option_copied result ≡ error_lines wanted.now }
{
    let (front, lines) = wanted.split_at(wanted.len().min(6));
    if is(front, b"error\n") {
        Some(lines)
    } else {
        None
    }
}

fn is(bytes: &[u8], word: &[u8]) -> bool
    ensures { result ≡ bytes_eq bytes.now word.now }
{
    bytes == word
}

/// Whether bytes can stand as what a case wants: some lines, none of them blank, a comment or the beginning of a case, without a line feed at the end.
pub fn can_be_wanted(bytes: &[u8]) -> bool
    ensures { result ≡ can_be_wanted bytes.now }
{
    are_wanted(bytes) && ends_with_text(bytes)
}

/// Whether all lines can be wanted.
#[tactic(auto, using(crate::proofs::Cutting::cut_all))]
fn are_wanted(bytes: &[u8]) -> bool
    ensures { result ≡ list_all (belongs Part.Wanted) (lines bytes.now) }
{
    let (_, rest) = cut(bytes, Part::Wanted);
    rest.is_empty()
}

/// Whether there is a last byte, and it is no line feed.
fn ends_with_text(bytes: &[u8]) -> bool
    ensures { result ≡ ends_with_text (slice_get bytes.now (length bytes.now - 1)) }
{
    match bytes.get(bytes.len().saturating_sub(1)) {
        Some(byte) => *byte != b'\n',
        None => false,
    }
}
