//! What a walk along a trail goes by.

use pg_grammar_value::{Grammar, Trail};
use pg_table::Table;
use pg_text::Text;

/// A text that was derived, with the trail of its derivation (ours).
#[derive(Clone, Copy)]
pub struct DerivedText<'d> {
    pub grammar: &'d Grammar,
    /// The operator table from which it is derived.
    pub table: &'d Table,
    pub text: &'d Text,
    pub trail: &'d Trail,
}
