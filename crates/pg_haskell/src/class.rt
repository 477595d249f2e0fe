//! Class expressions as predicates of characters.

use crate::imports::Library;
use crate::literal::{push_character, push_string};
use crate::names::Named;
use crate::page::Page;
use pg_file_items::{WrittenClass, WrittenPart};
use std::alloc::AllocError;

/// What is still to be put of a predicate.
#[derive(Clone, Copy)]
enum Todo {
    /// A whole expression, in parentheses unless it is one word where that is wanted.
    Part { is_argument: bool },
    Text(&'static str),
}

/// Puts what reads a character of a class, as an argument of a function if that is wanted.
pub(crate) fn put_reader(
    page: &mut Page,
    class: &WrittenClass,
    is_argument: bool,
) -> Result<(), AllocError> {
    if is_any(class) {
        return page.put_parsec("anyChar");
    }
    page.put(if is_argument { "(" } else { "" })?;
    match class.parts() {
        [WrittenPart::Literal(characters)] => put_among(page, "oneOf", characters.as_slice())?,
        [WrittenPart::Complement, WrittenPart::Literal(characters)] => {
            put_among(page, "noneOf", characters.as_slice())?
        }
        _ => {
            page.put_parsec("satisfy")?;
            page.put(" ")?;
            put_class(page, class)?
        }
    }
    page.put(if is_argument { ")" } else { "" })
}

/// Whether a class is written as the complement of the empty literal.
pub(crate) fn is_any(class: &WrittenClass) -> bool {
    match class.parts() {
        [WrittenPart::Complement, WrittenPart::Literal(characters)] => characters.is_empty(),
        _ => false,
    }
}

/// Puts what reads one of these characters, or none of them.
fn put_among(page: &mut Page, name: &'static str, characters: &[char]) -> Result<(), AllocError> {
    page.put_parsec(name)?;
    page.put(" ")?;
    push_string(&mut page.text, characters)
}

/// Puts a class expression as an argument of a function.
pub(crate) fn put_class(page: &mut Page, class: &WrittenClass) -> Result<(), AllocError> {
    match class.parts() {
        [WrittenPart::Named(name)] => put_named(page, name.as_slice()),
        [WrittenPart::Literal(characters)] => put_members(page, characters.as_slice(), true),
        [WrittenPart::Complement, WrittenPart::Literal(characters)] => {
            put_members(page, characters.as_slice(), false)
        }
        parts => {
            page.put("(\\c' -> ")?;
            put_parts(page, parts)?;
            page.put(")")
        }
    }
}

/// Puts whether a character is one of these, or none of them.
fn put_members(page: &mut Page, characters: &[char], is_in: bool) -> Result<(), AllocError> {
    match characters {
        [] => page.put(if is_in {
            "(const False)"
        } else {
            "(const True)"
        }),
        [c] => {
            page.put(if is_in { "(== " } else { "(/= " })?;
            push_character(&mut page.text, *c)?;
            page.put(")")
        }
        _ => {
            page.put(if is_in { "(`elem` " } else { "(`notElem` " })?;
            push_string(&mut page.text, characters)?;
            page.put(")")
        }
    }
}

/// Puts a predicate, or the function of a class item.
fn put_named(page: &mut Page, name: &[char]) -> Result<(), AllocError> {
    for (written, haskell) in PREDICATES {
        if written.chars().eq(name.iter().copied()) {
            page.imports.add(Library::Characters, haskell)?;
            return page.put(haskell);
        }
    }
    page.put_name(Named::Class, name)
}

/// The predicates of grammar files, and their names in Data.Char.
const PREDICATES: [(&str, &str); 6] = [
    ("digit", "isDigit"),
    ("octDigit", "isOctDigit"),
    ("hexDigit", "isHexDigit"),
    ("letter", "isAlpha"),
    ("alphaNum", "isAlphaNum"),
    ("space", "isSpace"),
];

/// Puts what the parts of a class expression, which stand in preorder, say of a character.
fn put_parts(page: &mut Page, parts: &[WrittenPart]) -> Result<(), AllocError> {
    let mut todo = Vec::new(page.alloc);
    todo.push(Todo::Part { is_argument: false })?;
    let mut rest = parts;
    for _ in 0..u64::MAX {
        let Some(next) = todo.pop() else {
            break;
        };
        match next {
            Todo::Text(text) => page.put(text)?,
            Todo::Part { is_argument } => {
                let Some((part, after)) = rest.split_first() else {
                    break;
                };
                rest = after;
                put_part(page, part, is_argument, &mut todo)?;
            }
        }
    }
    Ok(())
}

/// Puts a part, or notes what it consists of.
fn put_part(
    page: &mut Page,
    part: &WrittenPart,
    is_argument: bool,
    todo: &mut Vec<Todo>,
) -> Result<(), AllocError> {
    match part {
        WrittenPart::Union(count) => {
            open(page, is_argument, todo)?;
            note_union(*count, todo)
        }
        WrittenPart::Complement => {
            open(page, is_argument, todo)?;
            todo.push(Todo::Part { is_argument: true })?;
            page.put("not ")
        }
        WrittenPart::Literal(_) | WrittenPart::Range(_, _) | WrittenPart::Named(_) => {
            open(page, is_argument, todo)?;
            put_atom(page, part)
        }
    }
}

/// Opens a parenthesis, if one is wanted, and notes that it is to be closed.
fn open(page: &mut Page, is_wanted: bool, todo: &mut Vec<Todo>) -> Result<(), AllocError> {
    if !is_wanted {
        return Ok(());
    }
    todo.push(Todo::Text(")"))?;
    page.put("(")
}

/// Notes the expressions of a union. Where one of them is a union itself it needs no parentheses.
fn note_union(count: usize, todo: &mut Vec<Todo>) -> Result<(), AllocError> {
    for number in 0..count {
        if number > 0 {
            todo.push(Todo::Text(" || "))?;
        }
        todo.push(Todo::Part { is_argument: false })?;
    }
    Ok(())
}

/// Puts what an atom says of a character.
fn put_atom(page: &mut Page, part: &WrittenPart) -> Result<(), AllocError> {
    match part {
        WrittenPart::Literal(characters) => put_literal(page, characters.as_slice()),
        WrittenPart::Range(low, high) => {
            push_character(&mut page.text, *low)?;
            page.put(" <= c' && c' <= ")?;
            push_character(&mut page.text, *high)
        }
        WrittenPart::Named(name) => {
            put_named(page, name.as_slice())?;
            page.put(" c'")
        }
        WrittenPart::Union(_) | WrittenPart::Complement => Ok(()),
    }
}

/// Puts whether the character is one of a literal.
fn put_literal(page: &mut Page, characters: &[char]) -> Result<(), AllocError> {
    match characters {
        // No character is one of none; the variable is used, so that no compiler warns of it.
        [] => page.put("c' /= c'"),
        [c] => {
            page.put("c' == ")?;
            push_character(&mut page.text, *c)
        }
        _ => {
            page.put("c' `elem` ")?;
            push_string(&mut page.text, characters)
        }
    }
}
