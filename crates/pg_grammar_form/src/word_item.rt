//! A word item of a grammar: the characters that begin a word, those that continue it, and the reserved words.
//!
//! Forms name word items by their numbers. Word items have distinct names, and each class item that one of them names
//! exists. These are invariants of the grammar that holds them.

ghost use Rattle.std.specs.Prelude.{◌≡◌};
ghost use Rattle.pg_grammar_form.specs.WordItems.{word_lacks_item, word_has_bad_literal, word_has_long_text};

use crate::class::ClassExpression;
use crate::texts::{has_empty, has_long};
use pg_text::{Characters, Texts};

/// A kind of words, with the name that forms use for it: a character of the head, then all characters of the rest that
/// follow, unless the whole word is reserved.
#[derive(Drop)]
pub struct WordItem {
    /// Its name, which no other word item of its grammar has.
    pub name: Characters,
    /// The characters that begin a word.
    pub head: ClassExpression,
    /// The characters that continue a word.
    pub rest: ClassExpression,
    /// The words that aren't of this kind, each of at least one character.
    pub reserved: Texts,
}

impl WordItem {
    /// Whether it names a class item other than the first `count`.
    pub fn lacks_item(&self, count: usize) -> bool
        ensures { result ≡ word_lacks_item count self.now }
    {
        self.head.lacks_item(count) || self.rest.lacks_item(count)
    }

    /// Whether a range descends, or a reserved text is empty.
    pub fn has_bad_literal(&self) -> bool
        ensures { result ≡ word_has_bad_literal self.now }
    {
        self.head.has_descending_range()
            || self.rest.has_descending_range()
            || has_empty(&self.reserved)
    }

    /// Whether a literal has more than 1,024 characters, or the name of a predicate has more than 64.
    pub fn has_long_text(&self) -> bool
        ensures { result ≡ word_has_long_text self.now }
    {
        self.head.has_long_text() || self.rest.has_long_text() || has_long(&self.reserved)
    }
}
