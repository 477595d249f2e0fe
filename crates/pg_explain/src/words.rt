//! Starts in words.

use crate::class_words::class_words;
use crate::quoted::push_quoted;
use pg_explain_context::{Known, text_of};
use pg_grammar_form::WordItem;
use pg_sets_own::ListedStart;
use pg_start::StartKind;
use std::alloc::{AllocError, Global};

/// The start with this number, in words; empty if there is none. Fails where memory runs out.
pub fn start_words(alloc: Global, known: &Known, number: usize) -> Result<String, AllocError> {
    match known.start(number) {
        Some(listed) => words_of(alloc, known, number, listed),
        None => Ok(String::new(alloc)),
    }
}

fn words_of(
    alloc: Global,
    known: &Known,
    number: usize,
    listed: &ListedStart,
) -> Result<String, AllocError> {
    match listed.start.view() {
        StartKind::Class(class) => class_words(alloc, known, class, number),
        StartKind::Key(key, _) => {
            let mut text = String::new(alloc);
            push_quoted(alloc, &mut text, key.as_slice())?;
            Ok(text)
        }
        StartKind::Word(_, _, _) => word_words(alloc, known.grammar.word_items(), listed.word),
        StartKind::End => String::from_str(alloc, "the end of the text"),
    }
}

/// A word of the item with this number, or an operator.
fn word_words(alloc: Global, items: &[WordItem], word: usize) -> Result<String, AllocError> {
    match items.get(word) {
        Some(item) => {
            let name = text_of(alloc, &item.name)?;
            format!(in alloc; "a word of {name}")
        }
        None => String::from_str(alloc, "an operator"),
    }
}
