//! Texts in which a string of the grammar stands where a word is read, and texts in which a string is followed by what would continue a longer string or a
//! word.

use crate::asks::{Ask, push_guided};
use pg_explain_samples::{Target, Want, form_at};
use pg_grammar_classes::ClassSite;
use pg_grammar_form::{Leaf, NodeId, WordId};
use pg_grammar_value::Grammar;
use std::alloc::{AllocError, Global};

/// The most strings, and the most words, that are tried.
const MOST: usize = 16;

/// A word item, and a node that reads it.
#[derive(Clone, Copy)]
struct Word {
    node: NodeId,
    item: WordId,
}

/// Adds the wishes for strings and words.
pub(crate) fn push_meeting(
    alloc: Global,
    grammar: &Grammar,
    asks: &mut Vec<Ask>,
) -> Result<(), AllocError> {
    let strings = strings_of(alloc, grammar)?;
    let words = words_of(alloc, grammar)?;
    for string in &strings {
        push_words(alloc, grammar, *string, &words, asks)?;
        push_longer(alloc, grammar, *string, &strings, asks)?;
    }
    Ok(())
}

/// The nodes of the first strings of the grammar.
fn strings_of(alloc: Global, grammar: &Grammar) -> Result<Vec<NodeId>, AllocError> {
    let mut strings = Vec::new(alloc);
    for number in 0..grammar.nodes().len() {
        let node = NodeId::new(number);
        if strings.len() < MOST && !string_at(grammar, node).is_empty() {
            strings.push(node)?;
        }
    }
    Ok(strings)
}

/// The characters of the string at a node; empty for another form.
fn string_at(grammar: &Grammar, node: NodeId) -> &[char] {
    match leaf_at(grammar, node) {
        Some(Leaf::String(text)) => text.as_slice(),
        Some(
            Leaf::Satisfy(_)
            | Leaf::Word(_)
            | Leaf::NotFollowedBy(_)
            | Leaf::EndOfText
            | Leaf::Declare(_),
        )
        | None => &[],
    }
}

/// The leaf at a node, if one stands there.
fn leaf_at(grammar: &Grammar, node: NodeId) -> Option<&Leaf<WordId>> {
    form_at(grammar, node)?.leaf()
}

/// The first words of the grammar.
fn words_of(alloc: Global, grammar: &Grammar) -> Result<Vec<Word>, AllocError> {
    let mut words = Vec::new(alloc);
    for number in 0..grammar.nodes().len() {
        if words.len() < MOST
            && let Some(word) = word_at(grammar, NodeId::new(number))
        {
            words.push(word)?;
        }
    }
    Ok(words)
}

/// The word at a node, if one stands there.
fn word_at(grammar: &Grammar, node: NodeId) -> Option<Word> {
    match leaf_at(grammar, node) {
        Some(Leaf::Word(item)) => Some(Word { node, item: *item }),
        Some(
            Leaf::Satisfy(_)
            | Leaf::String(_)
            | Leaf::NotFollowedBy(_)
            | Leaf::EndOfText
            | Leaf::Declare(_),
        )
        | None => None,
    }
}

/// Words that are spelled as the string, if they can begin as it does, and the string followed by a character that continues them.
fn push_words(
    alloc: Global,
    grammar: &Grammar,
    string: NodeId,
    words: &[Word],
    asks: &mut Vec<Ask>,
) -> Result<(), AllocError> {
    let text = string_at(grammar, string);
    let Some(first) = text.first() else {
        return Ok(());
    };
    for word in words {
        if grammar.contains(ClassSite::Head(word.item), *first) {
            let target = Target::Whole(Want::Guide);
            push_guided(alloc, word.node, target, text, false, asks)?;
            push_next(alloc, string, next_of(grammar, word.item), asks)?;
        }
    }
    Ok(())
}

/// Adds the string followed by this character, if there is one.
fn push_next(
    alloc: Global,
    string: NodeId,
    next: Option<char>,
    asks: &mut Vec<Ask>,
) -> Result<(), AllocError> {
    match next {
        Some(c) => push_guided(alloc, string, Target::Whole(Want::Any), &[c], true, asks),
        None => Ok(()),
    }
}

/// The least printable character that can continue a word.
fn next_of(grammar: &Grammar, word: WordId) -> Option<char> {
    for byte in 33..127u8 {
        let c = char::from(byte);
        if grammar.contains(ClassSite::Rest(word), c) {
            return Some(c);
        }
    }
    None
}

/// The string followed by the next character of each longer string that begins with it.
fn push_longer(
    alloc: Global,
    grammar: &Grammar,
    string: NodeId,
    strings: &[NodeId],
    asks: &mut Vec<Ask>,
) -> Result<(), AllocError> {
    let text = string_at(grammar, string);
    for other in strings {
        let next = next_after(text, string_at(grammar, *other));
        push_next(alloc, string, next, asks)?;
    }
    Ok(())
}

/// The character of the text after this beginning, if the text begins with it.
fn next_after(front: &[char], text: &[char]) -> Option<char> {
    match text.get(0..front.len()) {
        Some(found) if found == front => text.get(front.len()).copied(),
        Some(_) | None => None,
    }
}
