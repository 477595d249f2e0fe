//! How labels and texts are written on a line.

ghost use Rattle.std.specs.Prelude.{◌≡◌, ◌++◌, ◌||◌, OnOk, slice_get, length, ◌-◌};
ghost use Rattle.std.specs.List.{list_all};
ghost use Rattle.std.specs.Str.{bytes_eq};
ghost use Rattle.pg_corpus_outline.specs.Outlines.{is_plain, begins_otherwise, ends_otherwise, is_reserved, is_word, name_of};

use pg_tree::push_quoted;
use std::alloc::AllocError;

/// Appends a label: as it is if it is a word, and else in quotes behind the word `node`.
pub(crate) fn push_label(page: &mut Vec<u8>, label: &[u8]) -> Result<(), AllocError>
    ensures { OnOk result (page.new.items ≡ page.old.items ++ name_of label.now) }
{
    if is_word(label) {
        return page.extend_from_slice(label);
    }
    page.extend_from_slice(b"node ")?;
    push_quoted(label, page)
}

/// Whether a label stands as it is: one word that is taken for nothing else.
fn is_word(label: &[u8]) -> bool
    ensures { result ≡ is_word label.now }
{
    are_plain(label) && !is_taken_otherwise(label)
}

fn are_plain(label: &[u8]) -> bool
    ensures { result ≡ list_all is_plain label.now }
{
    label.iter().all(|byte| is_plain(*byte))
}

fn is_plain(byte: u8) -> bool
    ensures { result ≡ is_plain byte }
{
    byte > b' ' && !(byte == b'"' || byte == b'\\')
}

fn is_taken_otherwise(label: &[u8]) -> bool
    ensures { result ≡ (begins_otherwise (slice_get label.now 0) || (ends_otherwise (slice_get label.now (length label.now - 1)) || is_reserved label.now)) }
{
    begins_otherwise(label) || (ends_otherwise(label) || is_reserved(label))
}

fn begins_otherwise(label: &[u8]) -> bool
    ensures { result ≡ begins_otherwise (slice_get label.now 0) }
{
    match label.get(0) {
        Some(byte) => *byte == b'=' || (*byte == b'-' || (*byte == b'#' || *byte == b'[')),
        None => true,
    }
}

fn ends_otherwise(label: &[u8]) -> bool
    ensures { result ≡ ends_otherwise (slice_get label.now (length label.now - 1)) }
{
    match label.get(label.len().saturating_sub(1)) {
        Some(byte) => *byte == b'>',
        None => true,
    }
}

fn is_reserved(label: &[u8]) -> bool
    ensures { result ≡ is_reserved label.now }
{
    is(label, b"error") || (is(label, b"accepted") || is(label, b"node"))
}

fn is(label: &[u8], word: &[u8]) -> bool
    ensures { result ≡ bytes_eq label.now word.now }
{
    label == word
}
