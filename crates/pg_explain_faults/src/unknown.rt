//! Names that aren't defined.

use crate::context::{Wanted, wanted_at};
use crate::names::{BUILDERS, Defined, NameKind, PREDICATES, named, names_defined, names_of};
use crate::nearest::nearest;
use crate::parsec::in_place_of;
use crate::shown::{push_line, quoted};
use crate::tokens::Tokens;
use pg_file_tokens::is_word;
use pg_text::characters_of;
use std::alloc::{AllocError, Global};

/// A name that isn't defined where it stands, and the names that the file defines.
#[derive(Clone, Copy)]
struct Unknown<'n> {
    name: &'n [char],
    /// The name in quotes.
    shown: &'n str,
    there: &'n [Defined<'n>],
}

/// Appends what the name at a token stands for elsewhere, and which name may be meant.
pub(crate) fn push_unknown(
    alloc: Global,
    page: &mut String,
    tokens: &Tokens,
    number: usize,
) -> Result<(), AllocError> {
    let Some(name) = tokens.name(number) else {
        return Ok(());
    };
    let there = names_defined(alloc, tokens)?;
    let shown = quoted(alloc, name)?;
    let unknown = Unknown {
        name,
        shown: shown.as_str(),
        there: there.as_slice(),
    };
    match wanted_at(tokens, number) {
        Wanted::Value => push_no_value(alloc, page, unknown),
        Wanted::Class => push_no_class(alloc, page, tokens, number, unknown),
        Wanted::Word => push_no_word(alloc, page, unknown),
        Wanted::Builder => push_no_builder(alloc, page, tokens, number, unknown),
        Wanted::Operators => push_line(
            page,
            "operators are used, but there is no `operators` item; add one, for example: operators \"+-\" gap \" \";",
        ),
    }
}

/// Appends that a name isn't that of a rule, what it stands for instead, and which rule may be meant, or `eof`, the only word that is a value by itself.
fn push_no_value(alloc: Global, page: &mut String, unknown: Unknown<'_>) -> Result<(), AllocError> {
    match else_words(alloc, unknown)? {
        Some(words) => push_line(page, words.as_str())?,
        None => push_no_rule(alloc, page, unknown.name)?,
    }
    let names = names_of(alloc, unknown.there, NameKind::Rule)?;
    push_nearest_or(alloc, page, unknown.name, &names, &["eof"])
}

/// Appends that there is no rule with this name, and which rule may be meant.
pub(crate) fn push_no_such_rule(
    alloc: Global,
    page: &mut String,
    there: &[Defined],
    name: &[char],
) -> Result<(), AllocError> {
    push_no_rule(alloc, page, name)?;
    push_nearest_of(alloc, page, there, name, NameKind::Rule)
}

/// Appends that there is no rule with this name.
fn push_no_rule(alloc: Global, page: &mut String, name: &[char]) -> Result<(), AllocError> {
    let shown = quoted(alloc, name)?;
    let words = format!(in alloc; "there is no rule {shown}")?;
    push_line(page, words.as_str())
}

/// What a name that isn't a value stands for, and how to make a value of it.
fn else_words(alloc: Global, unknown: Unknown<'_>) -> Result<Option<String>, AllocError> {
    let Unknown { name, shown, there } = unknown;
    let (what, form, read) = if is_one_of(&PREDICATES, name) {
        ("a predicate", "satisfy", "one such character")
    } else if named(there, NameKind::Class, name).is_some() {
        ("a class", "satisfy", "one such character")
    } else if named(there, NameKind::Word, name).is_some() {
        ("a word item", "word", "such a word")
    } else {
        return instead_words(alloc, name, shown);
    };
    let bare = bare(alloc, name)?;
    let words = format!(in alloc;
        "{shown} is {what}, but a value is needed here: {form}({bare}) reads {read}"
    )?;
    Ok(Some(words))
}

/// What to write instead of a form that grammar files don't have, if the name is one of those.
fn instead_words(alloc: Global, name: &[char], shown: &str) -> Result<Option<String>, AllocError> {
    match in_place_of(name) {
        Some(instead) => {
            let words = format!(in alloc; "there is no {shown} in grammar files; {instead}")?;
            Ok(Some(words))
        }
        None => Ok(None),
    }
}

/// Appends that a name isn't that of a class defined above, nor of a predicate.
fn push_no_class(
    alloc: Global,
    page: &mut String,
    tokens: &Tokens,
    number: usize,
    unknown: Unknown<'_>,
) -> Result<(), AllocError> {
    push_no_class_words(alloc, page, unknown)?;
    let names = classes_above(alloc, unknown.there, tokens.place(tokens.item(number)))?;
    push_nearest_or(alloc, page, unknown.name, &names, &PREDICATES)
}

/// Appends what a name is that isn't a class defined above.
fn push_no_class_words(
    alloc: Global,
    page: &mut String,
    unknown: Unknown<'_>,
) -> Result<(), AllocError> {
    let words = no_class_words(alloc, unknown)?;
    push_line(page, words.as_str())
}

/// What a name is that isn't a class defined above.
fn no_class_words(alloc: Global, unknown: Unknown<'_>) -> Result<String, AllocError> {
    let Unknown { name, shown, there } = unknown;
    if named(there, NameKind::Class, name).is_some() {
        format!(in alloc; "the class {shown} is defined further down; move it above its use")
    } else if named(there, NameKind::Rule, name).is_some() {
        format!(in alloc;
            "{shown} is a rule, but a class is needed here, such as digit, \"xyz\" or \"a\"..\"z\""
        )
    } else {
        format!(in alloc; "{shown} is neither a predicate nor a class defined above")
    }
}

/// The names of the classes defined before a place.
fn classes_above<'f>(
    alloc: Global,
    there: &[Defined<'f>],
    place: usize,
) -> Result<Vec<&'f [char]>, AllocError> {
    let mut names = Vec::new(alloc);
    for one in there {
        if one.kind == NameKind::Class && one.place < place {
            names.push(one.name)?;
        }
    }
    Ok(names)
}

/// Appends that a name isn't that of a word item.
fn push_no_word(alloc: Global, page: &mut String, unknown: Unknown<'_>) -> Result<(), AllocError> {
    push_word_item(alloc, page, unknown.name, unknown.shown)?;
    push_nearest_of(alloc, page, unknown.there, unknown.name, NameKind::Word)
}

/// Appends how a word item with this name would be written.
fn push_word_item(
    alloc: Global,
    page: &mut String,
    name: &[char],
    shown: &str,
) -> Result<(), AllocError> {
    let bare = bare(alloc, name)?;
    let words = format!(in alloc;
        "{shown} isn't a word item; define it, for example: word {bare} head letter rest alphaNum;"
    )?;
    push_line(page, words.as_str())
}

/// Appends that a name isn't that of a builder.
fn push_no_builder(
    alloc: Global,
    page: &mut String,
    tokens: &Tokens,
    number: usize,
    unknown: Unknown<'_>,
) -> Result<(), AllocError> {
    push_builders(alloc, page, unknown.shown)?;
    push_label(alloc, page, chain_at(tokens, number), unknown.name)?;
    push_nearest_or(alloc, page, unknown.name, &[], &BUILDERS)
}

/// Appends which builders there are.
fn push_builders(alloc: Global, page: &mut String, shown: &str) -> Result<(), AllocError> {
    let words = format!(in alloc;
        "{shown} isn't a builder; the builders are node, num, name, list, call, flat and join"
    )?;
    push_line(page, words.as_str())
}

/// The word of the chain whose builder is the token with this number, if it is one's.
fn chain_at(tokens: &Tokens, number: usize) -> Option<&'static str> {
    let before = number.saturating_sub(2);
    if tokens.is_word(before, "chainl1") {
        Some("chainl1")
    } else if tokens.is_word(before, "chainr1") {
        Some("chainr1")
    } else {
        None
    }
}

/// Appends how a name is written as a label, in a chain or around a value.
fn push_label(
    alloc: Global,
    page: &mut String,
    chain: Option<&str>,
    name: &[char],
) -> Result<(), AllocError> {
    let words = label_words(alloc, chain, name)?;
    push_line(page, words.as_str())
}

/// How a name is written as a label.
fn label_words(alloc: Global, chain: Option<&str>, name: &[char]) -> Result<String, AllocError> {
    let bare = bare(alloc, name)?;
    match chain {
        Some(chain) => format!(in alloc;
            "write your own label as a symbol: {chain}(node, \"{bare}\", v, s)"
        ),
        None => format!(in alloc; "write your own label as a symbol: build(node, \"{bare}\", v)"),
    }
}

/// Appends the nearest name of a kind, if one is near.
fn push_nearest_of(
    alloc: Global,
    page: &mut String,
    there: &[Defined],
    name: &[char],
    kind: NameKind,
) -> Result<(), AllocError> {
    let names = names_of(alloc, there, kind)?;
    push_nearest(alloc, page, name, &names)
}

/// Appends the nearest name, if one is near.
fn push_nearest(
    alloc: Global,
    page: &mut String,
    name: &[char],
    names: &[&[char]],
) -> Result<(), AllocError> {
    match nearest(alloc, name, names)? {
        Some(found) => push_meant(alloc, page, found),
        None => Ok(()),
    }
}

/// Appends that a name may be meant.
fn push_meant(alloc: Global, page: &mut String, name: &[char]) -> Result<(), AllocError> {
    let shown = quoted(alloc, name)?;
    let words = format!(in alloc; "did you mean {shown}?")?;
    push_line(page, words.as_str())
}

/// Appends the nearest of some names and some built-in words, if one is near.
fn push_nearest_or(
    alloc: Global,
    page: &mut String,
    name: &[char],
    names: &[&[char]],
    words: &[&str],
) -> Result<(), AllocError> {
    let spelled = spelled(alloc, words)?;
    let mut all = Vec::new(alloc);
    for one in names {
        all.push(*one)?;
    }
    for one in &spelled {
        all.push(one.as_slice())?;
    }
    push_nearest(alloc, page, name, &all)
}

/// The words as lists of characters.
fn spelled(alloc: Global, words: &[&str]) -> Result<Vec<Vec<char>>, AllocError> {
    let mut spelled = Vec::new(alloc);
    for word in words {
        spelled.push(characters_of(alloc, word)?)?;
    }
    Ok(spelled)
}

/// A name as a text.
fn bare(alloc: Global, name: &[char]) -> Result<String, AllocError> {
    let mut text = String::new(alloc);
    for c in name {
        text.push(*c)?;
    }
    Ok(text)
}

fn is_one_of(words: &[&str], name: &[char]) -> bool {
    words.iter().any(|word| is_word(word, name))
}
