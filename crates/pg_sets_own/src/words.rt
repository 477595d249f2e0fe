//! Word starts: the classes of word items, and the first word item that reads just the same words.
//!
//! Word items that read the same words share one start, and so do the operators where an item reads the same.
ghost use Rattle.std.specs.Prelude.{◌≡◌, ◌↔◌, ℕ, List, true, IfOk};
ghost use Rattle.std.specs.List.{list_all};
ghost use Rattle.pg_text.specs.Texts.{is_among};
ghost use Rattle.pg_sets_own.specs.OwnStarts.{IsClassOf, SameTexts};
ghost use Rattle.pg_sets_own.specs.Listed.{IsFirstReader};
ghost use Rattle.pg_sets_own.specs.Words.{AreClassesOf, AreWordClasses, ListsWords};

use crate::classes::class_in_grammar;
use crate::listed::{ListedStart, texts_order};
use pg_class::Class;
use pg_grammar_form::WordItem;
use pg_grammar_value::Grammar;
use pg_start::{Start, StartKind};
use pg_text::Texts;
use std::alloc::{AllocError, Global};

/// The two classes of a word item.
#[derive(Drop)]
pub(crate) struct WordClasses {
    /// The characters that can begin a word.
    pub(crate) head: Class,
    /// The characters that can continue it.
    pub(crate) rest: Class,
}

/// The classes of the word items, in file order.
pub(crate) fn classes_of_words(
    alloc: Global,
    grammar: &Grammar,
    classes: &[Class],
) -> Result<Vec<WordClasses>, AllocError>
    requires { AreClassesOf grammar.now classes.now }
    ensures { IfOk result (λ words. AreWordClasses grammar.now words.items) }
{
    let mut words = Vec::new(alloc);
    for item in grammar.word_items() {
        let word = classes_of_word(alloc, grammar, classes, item)?;
        words.push(word)?;
    }
    Ok(words)
}

/// The classes of a word item.
fn classes_of_word(
    alloc: Global,
    grammar: &Grammar,
    classes: &[Class],
    item: &WordItem,
) -> Result<WordClasses, AllocError>
    requires { AreClassesOf grammar.now classes.now }
    ensures { IfOk result (λ word. IsClassOf grammar.now item.now.head word.head × IsClassOf grammar.now item.now.rest word.rest) }
{
    let head = class_in_grammar(alloc, grammar, classes, &item.head)?;
    let rest = class_in_grammar(alloc, grammar, classes, &item.rest)?;
    Ok(WordClasses { head, rest })
}

/// The start of words with these classes and these reserved texts.
pub(crate) fn listed_words(
    grammar: &Grammar,
    words: &[WordClasses],
    head: &Class,
    rest: &Class,
    reserved: &Texts,
) -> Result<ListedStart, AllocError>
    requires { AreWordClasses grammar.now words.now }
    ensures { IfOk result (λ listed. ListsWords grammar.now head.now rest.now reserved.now listed) }
{
    let word = first_reader(grammar, words, head, rest, reserved);
    match grammar.word_items().get(word) {
        Some(item) => word_start(head, rest, &item.reserved, word),
        None => word_start(head, rest, reserved, word),
    }
}

/// The start of words with these classes and these reserved texts, under the word item with this number.
fn word_start(
    head: &Class,
    rest: &Class,
    reserved: &Texts,
    word: usize,
) -> Result<ListedStart, AllocError>
    ensures { IfOk result (λ listed. listed ≡ record { start = StartKind.Word head.now rest.now reserved.now; word = word }) }
{
    let start = Start::word(head, rest, reserved)?;
    Ok(ListedStart { start, word })
}

/// The number of the first word item that reads just these words, or the number of word items if none does.
fn first_reader(
    grammar: &Grammar,
    words: &[WordClasses],
    head: &Class,
    rest: &Class,
    reserved: &Texts,
) -> usize
    requires { AreWordClasses grammar.now words.now }
    ensures { IsFirstReader grammar.now head.now rest.now reserved.now result }
{
    let items = grammar.word_items();
    let mut word = 0;
    while word < items.len() {
        if reads_same(&items[word], &words[word], head, rest, reserved) {
            return word;
        }
        word += 1;
    }
    word
}

/// Whether a word item with these classes reads the same words as the given classes and reserved texts.
fn reads_same(
    item: &WordItem,
    word: &WordClasses,
    head: &Class,
    rest: &Class,
    reserved: &Texts,
) -> bool
    ensures { (result ≡ true) ↔ ((word.now.head ≡ head.now) × (word.now.rest ≡ rest.now) × SameTexts item.now.reserved reserved.now) }
{
    word.head.equals(head) && word.rest.equals(rest) && are_same(&item.reserved, reserved)
}

/// Whether the texts are the same, in any order.
fn are_same(texts: &Texts, others: &Texts) -> bool
    ensures { (result ≡ true) ↔ SameTexts texts.now others.now }
{
    texts_order(texts.as_slice(), others.as_slice()).is_eq()
        || (all_among(texts, others) && all_among(others, texts))
}

/// Whether each text is one of the others.
fn all_among(texts: &Texts, others: &Texts) -> bool
    ensures { result ≡ list_all (is_among others.now) texts.now }
{
    texts
        .as_slice()
        .iter()
        .all(|text| others.contains(text.as_slice()))
}
