//! What could stand at a place in a file. The parser itself is asked: a token can stand there if the parser doesn't refuse it.

use pg_file_parser::{SyntaxError, read_items};
use pg_file_tokens::lex;
use std::alloc::{AllocError, Global};

/// The tokens to try. Each has the words for it, and the words for other tokens that stand for it if they are listed.
const CANDIDATES: [(&str, &str, &str); 20] = [
    ("seq", "a value", ""),
    ("not", "a class", ""),
    ("x", "a name", "a value a class"),
    ("\"x\"", "a literal", "a class"),
    ("6", "a number", ""),
    ("(", "`(`", "a class"),
    (")", "`)`", ""),
    (",", "`,`", ""),
    (";", "`;`", ""),
    ("=", "`=`", ""),
    ("|", "`|`", ""),
    ("..", "`..`", ""),
    ("head", "`head`", "a name a class a value"),
    ("rest", "`rest`", "a name a class a value"),
    ("gap", "`gap`", "a name a class a value"),
    ("reserved", "`reserved`", "a name a class a value"),
    ("max", "`max`", "a name a class a value"),
    (
        "infixl",
        "a role such as `infixl`",
        "a name a class a value",
    ),
    ("table", "an item", "a name a class a value"),
    ("start", "an item", "a name a class a value an item"),
];

/// What could stand at a place, in words such as `a value or ")"`; empty if no token that was tried could.
pub(crate) fn expected(alloc: Global, text: &[char], place: usize) -> Result<String, AllocError> {
    let mut told: Vec<&'static str> = Vec::new(alloc);
    for candidate in &CANDIDATES {
        if !is_told(&told, candidate.2) && can_stand(alloc, text, place, candidate.0, &[])? {
            told.push(candidate.1)?;
        }
    }
    in_words(alloc, &told)
}

/// Whether these words are in the list.
fn is_told(told: &[&'static str], words: &str) -> bool {
    told.iter().any(|one| words.contains(*one))
}

/// Whether the parser accepts this token at a place, with a blank before it, and then what follows it there.
pub(crate) fn can_stand(
    alloc: Global,
    text: &[char],
    place: usize,
    written: &str,
    behind: &[char],
) -> Result<bool, AllocError> {
    let mut tried = front(alloc, text, place)?;
    for c in written.chars() {
        tried.push(c)?;
    }
    if behind.is_empty() {
        return takes(alloc, &tried, place.saturating_add(1));
    }
    tried.push(' ')?;
    let last = tried.len();
    for c in behind {
        tried.push(*c)?;
    }
    takes(alloc, &tried, last)
}

/// What stands before a place, and a blank.
fn front(alloc: Global, text: &[char], place: usize) -> Result<Vec<char>, AllocError> {
    let mut tried = Vec::new(alloc);
    for c in text.iter().take(place) {
        tried.push(*c)?;
    }
    tried.push(' ')?;
    Ok(tried)
}

/// Whether the parser accepts a text up to and including the token at a place.
fn takes(alloc: Global, tried: &[char], last: usize) -> Result<bool, AllocError> {
    let lexemes = lex(alloc, tried)?;
    match read_items(alloc, &lexemes) {
        Ok(_) => Ok(true),
        Err(SyntaxError::Fault(_, Some(at))) => Ok(at > last),
        Err(SyntaxError::Fault(_, None)) => Ok(true),
        Err(SyntaxError::Memory) => Err(AllocError),
    }
}

/// These words, joined with commas and an `or`.
fn in_words(alloc: Global, told: &[&'static str]) -> Result<String, AllocError> {
    let mut words = String::new(alloc);
    for (number, one) in told.iter().enumerate() {
        let joint = if number == 0 {
            ""
        } else if number.saturating_add(1) == told.len() {
            " or "
        } else {
            ", "
        };
        words.push_str(joint)?;
        words.push_str(one)?;
    }
    Ok(words)
}
