//! The operators item of a grammar: how operators are read, and how many a table may hold.
//!
//! A grammar that reads or declares operators has one. Each class item that it names exists, no reserved symbol is
//! empty, and a table may hold from 1 to 64 operators. These are invariants of the grammar that holds it.

ghost use Rattle.std.specs.Prelude.{◌≡◌};
ghost use Rattle.pg_grammar_form.specs.OperatorsItems.{operators_pass_limit, operators_lack_item, operators_have_bad_literal, operators_have_long_text};

use crate::class::ClassExpression;
use crate::limits::OPERATOR_LIMIT;
use crate::texts::{has_empty, has_long};
use pg_text::Texts;

/// How operators are read: the longest run of characters of the class, and then all characters of the gap.
#[derive(Drop)]
pub struct OperatorsItem {
    /// The characters of operators.
    pub class: ClassExpression,
    /// The characters that are skipped after an operator.
    pub gap: ClassExpression,
    /// The symbols that are never operators, each of at least one character.
    pub reserved: Texts,
    /// How many operators a table may hold, from 1 to 64.
    pub max: usize,
}

impl OperatorsItem {
    /// Whether it names a class item other than the first `count`.
    pub fn lacks_item(&self, count: usize) -> bool
        ensures { result ≡ operators_lack_item count self.now }
    {
        self.class.lacks_item(count) || self.gap.lacks_item(count)
    }

    /// Whether a range descends, or a reserved symbol is empty.
    pub fn has_bad_literal(&self) -> bool
        ensures { result ≡ operators_have_bad_literal self.now }
    {
        self.class.has_descending_range()
            || self.gap.has_descending_range()
            || has_empty(&self.reserved)
    }

    /// Whether a literal has more than 1,024 characters, or the name of a predicate has more than 64.
    fn has_long_text(&self) -> bool
        ensures { result ≡ operators_have_long_text self.now }
    {
        self.class.has_long_text() || self.gap.has_long_text() || has_long(&self.reserved)
    }

    /// Whether a literal or a name is too long, or the limit of a table isn't from 1 to 64 operators.
    pub fn passes_limit(&self) -> bool
        ensures { result ≡ operators_pass_limit self.now }
    {
        self.has_long_text() || self.max < 1 || self.max > OPERATOR_LIMIT
    }
}
