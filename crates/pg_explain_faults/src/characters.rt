//! Characters that begin no token.

use crate::shown::push_line;
use crate::tokens::{Tokens, is_in_name};
use std::alloc::{AllocError, Global};

/// What a name consists of.
pub(crate) const NAME: &str = "a name is an ASCII letter followed by ASCII letters, digits and `_`";

/// Characters that are invisible or easily confused with others, with their Unicode names.
const NAMED: [(char, &str); 56] = [
    ('\u{a0}', "no-break space"),
    ('\u{ad}', "soft hyphen"),
    ('\u{61c}', "arabic letter mark"),
    ('\u{1680}', "ogham space mark"),
    ('\u{180e}', "mongolian vowel separator"),
    ('\u{2000}', "en quad"),
    ('\u{2001}', "em quad"),
    ('\u{2002}', "en space"),
    ('\u{2003}', "em space"),
    ('\u{2004}', "three-per-em space"),
    ('\u{2005}', "four-per-em space"),
    ('\u{2006}', "six-per-em space"),
    ('\u{2007}', "figure space"),
    ('\u{2008}', "punctuation space"),
    ('\u{2009}', "thin space"),
    ('\u{200a}', "hair space"),
    ('\u{200b}', "zero width space"),
    ('\u{200c}', "zero width non-joiner"),
    ('\u{200d}', "zero width joiner"),
    ('\u{200e}', "left-to-right mark"),
    ('\u{200f}', "right-to-left mark"),
    ('\u{2013}', "en dash"),
    ('\u{2014}', "em dash"),
    ('\u{2018}', "left single quotation mark"),
    ('\u{2019}', "right single quotation mark"),
    ('\u{201c}', "left double quotation mark"),
    ('\u{201d}', "right double quotation mark"),
    ('\u{2026}', "horizontal ellipsis"),
    ('\u{2028}', "line separator"),
    ('\u{2029}', "paragraph separator"),
    ('\u{202a}', "left-to-right embedding"),
    ('\u{202b}', "right-to-left embedding"),
    ('\u{202c}', "pop directional formatting"),
    ('\u{202d}', "left-to-right override"),
    ('\u{202e}', "right-to-left override"),
    ('\u{202f}', "narrow no-break space"),
    ('\u{205f}', "medium mathematical space"),
    ('\u{2060}', "word joiner"),
    ('\u{2061}', "function application"),
    ('\u{2062}', "invisible times"),
    ('\u{2063}', "invisible separator"),
    ('\u{2064}', "invisible plus"),
    ('\u{2066}', "left-to-right isolate"),
    ('\u{2067}', "right-to-left isolate"),
    ('\u{2068}', "first strong isolate"),
    ('\u{2069}', "pop directional isolate"),
    ('\u{2212}', "minus sign"),
    ('\u{3000}', "ideographic space"),
    ('\u{3164}', "hangul filler"),
    ('\u{fe0f}', "variation selector-16"),
    ('\u{feff}', "zero width no-break space (byte order mark)"),
    ('\u{ff08}', "fullwidth left parenthesis"),
    ('\u{ff09}', "fullwidth right parenthesis"),
    ('\u{ff0c}', "fullwidth comma"),
    ('\u{ff1b}', "fullwidth semicolon"),
    ('\u{ff1d}', "fullwidth equals sign"),
];

/// Appends why no token begins at a place.
pub(crate) fn push_bad(
    alloc: Global,
    page: &mut String,
    tokens: &Tokens,
    place: usize,
) -> Result<(), AllocError> {
    match tokens.text.get(place) {
        Some(c) if *c < ' ' || *c > '~' => push_strange(alloc, page, tokens, place, *c),
        Some(c) => push_line(page, bad_words(tokens, place, *c)),
        None => Ok(()),
    }
}

/// Appends the number of a character that isn't visible ASCII, what it is, and what could be written instead.
fn push_strange(
    alloc: Global,
    page: &mut String,
    tokens: &Tokens,
    place: usize,
    c: char,
) -> Result<(), AllocError> {
    push_number(alloc, page, c)?;
    push_line(page, strange_words(tokens, place, c))
}

fn push_number(alloc: Global, page: &mut String, c: char) -> Result<(), AllocError> {
    let number = u32::from(c);
    let what = what_it_is(c);
    let words = format!(in alloc; "this is U+{number:04X}, {what}")?;
    push_line(page, words.as_str())
}

/// What a character is that isn't visible ASCII.
fn what_it_is(c: char) -> &'static str {
    for one in &NAMED {
        if one.0 == c {
            return one.1;
        }
    }
    if c.is_control() {
        "a control character"
    } else {
        "which isn't an ASCII character"
    }
}

/// What could be written instead of such a character.
fn strange_words(tokens: &Tokens, place: usize, c: char) -> &'static str {
    if matches!(c, '\u{2018}'..='\u{201d}') {
        "literals have straight double quotes: string(\"x\")"
    } else if what_it_is(c) == "which isn't an ASCII character" && touches_name(tokens, place) {
        NAME
    } else {
        "outside literals and comments only ASCII characters are allowed, and no control characters except tabs and line ends"
    }
}

/// What is usually meant by an ASCII character that begins no token where it stands.
fn bad_words(tokens: &Tokens, place: usize, c: char) -> &'static str {
    if is_meant_in_name(tokens, place, c) {
        return NAME;
    }
    match c {
        '\'' => "literals have double quotes: string(\"x\")",
        '-' => "a comment begins with #",
        '"' => "the literal isn't closed on its line; write \\n for a line end inside it",
        '.' => "a range has two dots: \"a\"..\"z\"",
        '<' | '/' =>
            "write choice(v, w) for alternatives, and label(v, \"name\") to name what is expected",
        '{' | '[' => "the parts of a value are written in parentheses",
        '*' | '+' => "write many(v) for any number of times, and many1(v) for at least once",
        '?' => "write option(v) for an optional value",
        ':' => "a rule is NAME = value;",
        _ => "nothing in a grammar file begins with this character",
    }
}

/// Whether other languages allow the character in names, and it stands in a name or before one.
fn is_meant_in_name(tokens: &Tokens, place: usize, c: char) -> bool {
    match c {
        '_' => true,
        '\'' => is_name_before(tokens, place),
        '-' | '.' | '$' | '@' => is_name_before(tokens, place) && is_name_behind(tokens, place),
        _ => false,
    }
}

fn touches_name(tokens: &Tokens, place: usize) -> bool {
    is_name_before(tokens, place) || is_name_behind(tokens, place)
}

fn is_name_before(tokens: &Tokens, place: usize) -> bool {
    place > 0 && is_in_name_at(tokens, place.saturating_sub(1))
}

fn is_name_behind(tokens: &Tokens, place: usize) -> bool {
    is_in_name_at(tokens, place.saturating_add(1))
}

fn is_in_name_at(tokens: &Tokens, place: usize) -> bool {
    match tokens.text.get(place) {
        Some(c) => is_in_name(*c),
        None => false,
    }
}
