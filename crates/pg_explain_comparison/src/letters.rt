//! A few letters that stand for all characters of a grammar.
//!
//! Take two characters that stand in no string and that belong to the same classes. Either can replace the other in any text, so one of them is enough.

use pg_explain_samples::form_at;
use pg_grammar_classes::ClassSite;
use pg_grammar_form::{Form, Leaf, NodeId, WordId};
use pg_grammar_value::Grammar;
use std::alloc::{AllocError, Global};

/// The most letters.
const MOST: usize = 6;

/// The first characters of the grammar's strings, and printable ones that its classes tell apart; at most six.
pub(crate) fn letters_of(alloc: Global, grammar: &Grammar) -> Result<Vec<char>, AllocError> {
    let mut letters = Vec::new(alloc);
    for number in 0..grammar.nodes().len() {
        push_spelled(grammar, NodeId::new(number), &mut letters)?;
    }
    let spelled = letters.len();
    for byte in 32..127u8 {
        let c = char::from(byte);
        if is_new(grammar, &letters, spelled, c) {
            push(c, &mut letters)?;
        }
    }
    Ok(letters)
}

/// Adds the characters of the string at a node, if one stands there.
fn push_spelled(
    grammar: &Grammar,
    node: NodeId,
    letters: &mut Vec<char>,
) -> Result<(), AllocError> {
    match form_at(grammar, node) {
        Some(Form::Leaf(Leaf::String(text))) => push_all(text.as_slice(), letters),
        Some(_) | None => Ok(()),
    }
}

/// Adds those of these characters that aren't letters yet.
fn push_all(characters: &[char], letters: &mut Vec<char>) -> Result<(), AllocError> {
    for c in characters {
        if !is_letter(letters, *c) {
            push(*c, letters)?;
        }
    }
    Ok(())
}

/// Adds a letter, if there are fewer than six.
fn push(c: char, letters: &mut Vec<char>) -> Result<(), AllocError> {
    if letters.len() < MOST {
        letters.push(c)?;
    }
    Ok(())
}

/// Whether a character is one of the letters.
fn is_letter(letters: &[char], c: char) -> bool {
    letters.iter().any(|letter| *letter == c)
}

/// Whether a character isn't a letter yet, and its classes tell it apart from all letters after the first `spelled`.
fn is_new(grammar: &Grammar, letters: &[char], spelled: usize, c: char) -> bool {
    if is_letter(letters, c) {
        return false;
    }
    for letter in letters.iter().skip(spelled) {
        if !are_apart(grammar, *letter, c) {
            return false;
        }
    }
    true
}

/// Whether a class of the grammar has exactly one of the two characters.
fn are_apart(grammar: &Grammar, one: char, other: char) -> bool {
    for number in 0..grammar.nodes().len() {
        if is_of_node(grammar, number, one) != is_of_node(grammar, number, other) {
            return true;
        }
    }
    for number in 0..grammar.word_items().len() {
        if begins_word(grammar, number, one) != begins_word(grammar, number, other)
            || continues_word(grammar, number, one) != continues_word(grammar, number, other)
        {
            return true;
        }
    }
    false
}

/// Whether the node with this number has a class with this character.
fn is_of_node(grammar: &Grammar, number: usize, c: char) -> bool {
    grammar.contains(ClassSite::Node(NodeId::new(number)), c)
}

/// Whether a word of the item with this number can begin with a character.
fn begins_word(grammar: &Grammar, number: usize, c: char) -> bool {
    grammar.contains(ClassSite::Head(WordId::new(number)), c)
}

/// Whether a word of the item with this number can continue with a character.
fn continues_word(grammar: &Grammar, number: usize, c: char) -> bool {
    grammar.contains(ClassSite::Rest(WordId::new(number)), c)
}
