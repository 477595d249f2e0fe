//! What the findings of a grammar are written from.

use crate::texts::Texts;
use pg_grammar_value::Grammar;
use pg_predict_conditions::Judge;

/// A grammar with its facts, and the texts of its names and starts.
#[derive(Drop)]
pub(crate) struct Source {
    pub(crate) grammar: Grammar,
    pub(crate) judge: Judge,
    pub(crate) texts: Texts,
}
