//! Classes of characters in words: by the grammar's name for them if there is one, else by their ranges.

use crate::quoted::push_quoted;
use pg_class::Class;
use pg_explain_context::{Known, text_of};
use pg_grammar_form::{ClassExpression, ClassPart, Leaf, Node, NodeId};
use pg_tree::Label;
use std::alloc::{AllocError, Global};

/// The most ranges of a class that are shown; `..` stands for the others.
const MOST_RANGES: usize = 4;

/// The class of the start with this number, in words.
pub(crate) fn class_words(
    alloc: Global,
    known: &Known,
    class: &Class,
    start: usize,
) -> Result<String, AllocError> {
    if let [(low, high)] = class.ranges() {
        if *low == *high {
            return quoted(alloc, *low);
        }
        if *low == '\0' && *high == char::MAX {
            return String::from_str(alloc, "any character");
        }
    }
    if let Some(number) = item_of(known, class) {
        return item_words(alloc, known, number);
    }
    match predicate_of(known, start) {
        Some(name) => kind_words(alloc, name.as_str()),
        None => ranges_words(alloc, class.ranges()),
    }
}

/// A character in quotes.
pub(crate) fn quoted(alloc: Global, c: char) -> Result<String, AllocError> {
    let mut text = String::new(alloc);
    push_quoted(alloc, &mut text, &[c])?;
    Ok(text)
}

/// The number of the first class item with these characters, if there is one.
fn item_of(known: &Known, class: &Class) -> Option<usize> {
    known.classes.iter().position(|item| item.equals(class))
}

fn item_words(alloc: Global, known: &Known, number: usize) -> Result<String, AllocError> {
    match known.grammar.class_items().get(number) {
        Some(item) => {
            let name = text_of(alloc, &item.name)?;
            format!(in alloc; "a character of {name}")
        }
        None => Ok(String::new(alloc)),
    }
}

/// The name of a predicate that gives this start by itself somewhere, if there is one.
fn predicate_of<'k>(known: &'k Known, start: usize) -> Option<&'k Label> {
    for (number, node) in known.grammar.nodes().iter().enumerate() {
        if let Some(name) = lone_predicate(node) {
            if known.sets.first(NodeId::new(number)).contains(start) {
                return Some(name);
            }
        }
    }
    None
}

/// The name of the predicate that is a leaf's whole class, if it is one.
fn lone_predicate(node: &Node) -> Option<&Label> {
    match node.leaf()? {
        Leaf::Satisfy(class) => predicate_in(class),
        Leaf::String(_)
        | Leaf::Word(_)
        | Leaf::NotFollowedBy(_)
        | Leaf::EndOfText
        | Leaf::Declare(_) => None,
    }
}

fn predicate_in(class: &ClassExpression) -> Option<&Label> {
    let [part] = class.parts() else {
        return None;
    };
    match part {
        ClassPart::Predicate(used) => Some(&used.name),
        ClassPart::Literal(_)
        | ClassPart::Range(_, _)
        | ClassPart::Union(_)
        | ClassPart::Complement
        | ClassPart::Class(_) => None,
    }
}

/// The kind of characters that a predicate stands for, with its article.
fn kind_words(alloc: Global, name: &str) -> Result<String, AllocError> {
    if begins_with_vowel(name) {
        format!(in alloc; "an {name}")
    } else {
        format!(in alloc; "a {name}")
    }
}

fn begins_with_vowel(name: &str) -> bool {
    match name.as_bytes() {
        [first, ..] => matches!(*first, b'a' | b'e' | b'i' | b'o' | b'u'),
        [] => false,
    }
}

/// The first ranges, and whether there are more.
fn ranges_words(alloc: Global, ranges: &[(char, char)]) -> Result<String, AllocError> {
    let mut text = String::from_str(alloc, "a character of ")?;
    for (number, range) in ranges.iter().enumerate() {
        if number > 0 {
            text.push_str(" | ")?;
        }
        if number >= MOST_RANGES {
            text.push_str("..")?;
            break;
        }
        push_range(alloc, &mut text, range.0, range.1)?;
    }
    Ok(text)
}

/// Appends a range as it is written in a grammar file.
fn push_range(alloc: Global, text: &mut String, low: char, high: char) -> Result<(), AllocError> {
    push_quoted(alloc, text, &[low])?;
    if low != high {
        text.push_str("..")?;
        push_quoted(alloc, text, &[high])?;
    }
    Ok(())
}
