//! The four kinds of start, with their parts (ours).
//!
//! A kind by itself promises nothing. A `Start` has a kind, and its key isn't empty.

use pg_class::Class;
use pg_text::{Characters, Texts};

/// What a parser can meet at a place.
#[derive(Debug, Drop)]
pub enum StartKind {
    /// A character of the class.
    Class(Class),
    /// This text, with no character of the class after it.
    Key(Characters, Class),
    /// A word: a character of the first class and the longest run of the second after it, unless that word is reserved.
    Word(Class, Class, Texts),
    /// The end of the text.
    End,
}
