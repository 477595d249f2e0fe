//! The items of a grammar file, each with the places of its contents.
//!
//! A value is one whole form in preorder. Whether a name is defined, and only once, is checked later, with the help of
//! the places here. A place counts the characters of the file before it.

use crate::span::Span;
use crate::written::{WrittenClass, WrittenForm};
use pg_grammar_form::Role;
use pg_text::Characters;

/// A form and its place in the file.
#[derive(Drop)]
pub struct PlacedForm {
    pub form: WrittenForm,
    /// From its word to its closing parenthesis, or the name if the form is a rule.
    pub span: Span,
    /// The places of the names of classes, builders and words in it, from left to right.
    pub names: Vec<usize>,
}

/// A class expression of an item.
#[derive(Drop)]
pub struct PlacedClass {
    pub class: WrittenClass,
    /// The places of the names in it, from left to right.
    pub names: Vec<usize>,
}

/// An item of a grammar file.
#[derive(Drop)]
pub enum Item {
    /// A class expression with a name.
    Class {
        name: Characters,
        name_place: usize,
        class: PlacedClass,
    },
    /// A kind of words: the characters that begin and continue them, and the words that aren't of this kind.
    Word {
        name: Characters,
        name_place: usize,
        head: PlacedClass,
        rest: PlacedClass,
        reserved: Vec<Characters>,
    },
    /// The characters of operators, and those of the gap after one.
    Operators {
        class: PlacedClass,
        gap: PlacedClass,
        /// The symbols that aren't operators.
        reserved: Vec<Characters>,
        /// How many operators there may be, if the item says so.
        most: Option<usize>,
        /// The place of the word `operators`.
        place: usize,
    },
    /// An initial operator of the table.
    Table {
        role: Role,
        precedence: usize,
        symbol: Characters,
        /// The place of the word `table`.
        place: usize,
        symbol_place: usize,
    },
    /// The rule that a text is parsed by.
    Start {
        name: Characters,
        /// The place of the word `start`.
        place: usize,
        name_place: usize,
    },
    /// A rule and its value.
    Rule {
        name: Characters,
        /// The place of the name.
        place: usize,
        body: Vec<PlacedForm>,
    },
}
