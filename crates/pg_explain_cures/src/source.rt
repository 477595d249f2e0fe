//! The file that a cure is sought for, and how much may be tried.

use crate::finding::Found;
use pg_explain_comparison::Sample;
use pg_file::Syntax;
use pg_file_items::Span;
use pg_pred::Registry;
use pg_predict::Refused;
use pg_text::Text;

/// A grammar file whose grammar is refused.
#[derive(Clone, Copy)]
pub struct Source<'a> {
    /// The characters of the file.
    pub text: &'a [char],
    /// Its tokens and items.
    pub syntax: &'a Syntax,
    /// Its grammar, with its findings.
    pub refused: &'a Refused,
    /// For each node, the characters of the form that was written for it.
    pub spans: &'a [Span],
    /// Its findings, as `findings` returns them.
    pub found: &'a [Found],
    /// Texts of its grammar, which a change should keep.
    pub samples: &'a [Sample],
    /// Other texts that the grammar derives, such as those that show findings.
    pub others: &'a [Text],
    /// The predicates and builders that the file may name.
    pub registry: &'a Registry,
}

/// How many more changed files may be read and checked, and how many characters they may have together.
#[derive(Clone, Copy)]
pub struct Bound {
    pub trials: usize,
    pub characters: usize,
}

impl Bound {
    /// Whether a file of this many characters may no longer be read.
    pub(crate) fn is_used_up(&self, characters: usize) -> bool {
        self.trials == 0 || self.characters < characters
    }

    /// Counts a changed file of this many characters. Answers whether it may still be read.
    pub(crate) fn spend(&mut self, characters: usize) -> bool {
        if self.trials == 0 || self.characters < characters {
            return false;
        }
        self.trials -= 1;
        self.characters -= characters;
        true
    }
}
