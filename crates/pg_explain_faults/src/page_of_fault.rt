//! The page about a fault.

use crate::characters::push_bad;
use crate::limits::limit_words;
use crate::names::{Defined, PREDICATES, names_defined};
use crate::shown::push_line;
use crate::tokens::Tokens;
use crate::unexpected::push_unexpected;
use crate::unknown::{push_no_such_rule, push_unknown};
use pg_file::{FaultKind, FileFault};
use pg_file_tokens::{is_word, lex};
use pg_table::AdmitFault;
use pg_text::{Pos, characters_of};
use pg_text_excerpt::{Mark, positions, push_excerpt};
use std::alloc::{AllocError, Global};

/// The page for people about a fault in a grammar file with this name: the line where it stands, and what is wrong there (ours). The fault is what the file
/// was refused with, or what was left of it. In the second case, items with other faults are blanked out, and text may follow the end. Fails where memory
/// runs out.
pub fn fault_page(
    alloc: Global,
    name: &str,
    file: &[u8],
    left: &[u8],
    fault: &FileFault,
) -> Result<String, AllocError> {
    let shown = characters_of(alloc, front(file))?;
    let text = characters_of(alloc, front(left))?;
    let lexemes = lex(alloc, &text)?;
    let tokens = Tokens {
        text: &text,
        lexemes: &lexemes,
    };
    let place = place_of(alloc, &shown, fault)?;
    let mut page = String::new(alloc);
    push_place(alloc, &mut page, name, &shown, &tokens, place)?;
    push_words(
        alloc,
        &mut page,
        &tokens,
        number_of(&shown, &tokens, place),
        place,
        fault.kind,
    )?;
    Ok(page)
}

/// Appends the line of a place in a file.
fn push_place(
    alloc: Global,
    page: &mut String,
    name: &str,
    shown: &[char],
    tokens: &Tokens,
    place: usize,
) -> Result<(), AllocError> {
    let mark = Mark {
        first: place,
        after: tokens.end(place).min(shown.len()),
        number: None,
    };
    push_excerpt(alloc, page, name, shown, place, &[mark])
}

/// The number of the token at a place in a file, or one more than the last if the place is the end of the file.
fn number_of(shown: &[char], tokens: &Tokens, place: usize) -> usize {
    if place < shown.len() {
        tokens.number_at(place)
    } else {
        tokens.lexemes.len()
    }
}

/// The longest beginning of a file's bytes that is UTF-8.
fn front(bytes: &[u8]) -> &str {
    match std::str::from_utf8(bytes) {
        Ok(text) => text,
        Err(error) => match bytes.get(..error.valid_up_to()) {
            Some(front) => match std::str::from_utf8(front) {
                Ok(text) => text,
                Err(_) => "",
            },
            None => "",
        },
    }
}

/// The place with the position of a fault, or the end of the file if none has it.
fn place_of(alloc: Global, text: &[char], fault: &FileFault) -> Result<usize, AllocError> {
    let positions = positions(alloc, text)?;
    let found = positions
        .iter()
        .position(|position| *position == fault.position);
    Ok(found.unwrap_or(text.len()))
}

/// Appends what is wrong at a place.
fn push_words(
    alloc: Global,
    page: &mut String,
    tokens: &Tokens,
    number: usize,
    place: usize,
    kind: FaultKind,
) -> Result<(), AllocError> {
    match kind {
        FaultKind::NotUtf8 => push_line(page, "the file isn't UTF-8 from here on"),
        FaultKind::BadToken => push_bad(alloc, page, tokens, place),
        FaultKind::UnexpectedToken => push_unexpected(alloc, page, tokens, number),
        FaultKind::UnknownName => push_unknown(alloc, page, tokens, number),
        FaultKind::NameTwice => push_twice(alloc, page, tokens, number),
        FaultKind::NoStart => push_no_start(alloc, page, tokens, number),
        FaultKind::BadLiteral => push_line(page, literal_words(tokens, place)),
        FaultKind::LimitPassed => push_line(page, limit_words(tokens, number)),
        FaultKind::NotAdmitted(fault) => push_line(page, admit_words(fault)),
    }
}

/// What is wrong with a literal.
fn literal_words(tokens: &Tokens, place: usize) -> &'static str {
    let inside = tokens.text.get(place.saturating_add(1)).copied();
    let end = tokens.end(place);
    let has_escape = (place..end).any(|at| tokens.text.get(at).copied() == Some('\\'));
    if inside == Some('"') {
        "the literal is empty; it needs at least one character"
    } else if has_escape {
        "escapes are \\\" \\\\ \\n \\t \\r and \\u{..} with the number of a character in hexadecimal digits"
    } else {
        "each end of a range is one character, and the second can't be below the first"
    }
}

/// Why an operator isn't admitted.
fn admit_words(fault: AdmitFault) -> &'static str {
    match fault {
        AdmitFault::SymbolTooLong => "the symbol of an operator has at most 16 characters",
        AdmitFault::SymbolReserved => "the symbol is reserved by the `operators` item",
        AdmitFault::PrefixThere => "there is already a prefix operator with this symbol",
        AdmitFault::SymbolThere => "there is already an infix or postfix operator with this symbol",
        AdmitFault::TableFull =>
            "there are already as many operators as `max` in the `operators` item allows",
    }
}

/// Appends where a name was defined first.
fn push_twice(
    alloc: Global,
    page: &mut String,
    tokens: &Tokens,
    number: usize,
) -> Result<(), AllocError> {
    let Some(name) = tokens.name(number) else {
        return Ok(());
    };
    if PREDICATES.iter().any(|word| is_word(word, name)) {
        return push_line(page, "a predicate has this name, so a class can't have it");
    }
    let there = names_defined(alloc, tokens)?;
    let first = match earlier(&there, tokens.place(number), name) {
        Some(first) => first,
        None => first_item(tokens, name),
    };
    push_first(alloc, page, tokens.text, first)
}

/// Appends that the first definition stands at this place.
fn push_first(
    alloc: Global,
    page: &mut String,
    text: &[char],
    first: usize,
) -> Result<(), AllocError> {
    let positions = positions(alloc, text)?;
    match positions.get(first) {
        Some(position) => push_stands(alloc, page, *position),
        None => Ok(()),
    }
}

/// Appends that the first definition has this position.
fn push_stands(alloc: Global, page: &mut String, position: Pos) -> Result<(), AllocError> {
    let line = position.line;
    let column = position.column;
    let words = format!(in alloc; "the first one is at {line}:{column}")?;
    push_line(page, words.as_str())
}

/// Where the name was first defined as the same kind of thing as at the place.
fn earlier(there: &[Defined], place: usize, name: &[char]) -> Option<usize> {
    let kind = there.iter().find(|one| one.place == place)?.kind;
    for one in there {
        if one.kind == kind && one.name == name {
            return Some(one.place);
        }
    }
    None
}

/// Where the first item that begins with this word stands, or the end of the file if there is none.
fn first_item(tokens: &Tokens, word: &[char]) -> usize {
    for (number, lexeme) in tokens.lexemes.iter().enumerate() {
        if tokens.name(number) == Some(word) && tokens.item(number) == number {
            return lexeme.place;
        }
    }
    tokens.text.len()
}

/// Appends that there is no rule to start with.
fn push_no_start(
    alloc: Global,
    page: &mut String,
    tokens: &Tokens,
    number: usize,
) -> Result<(), AllocError> {
    let Some(name) = tokens.name(number) else {
        return push_line(
            page,
            "there is no `start` item; write start NAME; with the rule that texts are parsed by",
        );
    };
    let there = names_defined(alloc, tokens)?;
    push_no_such_rule(alloc, page, &there, name)
}
