//! Checks of the literals of an item.
//!
//! Literals are the reserved texts of a word item or of the operators item. That none of them is empty or too long is an invariant of the grammar that holds
//! the item, and not of the list.

ghost use Rattle.std.specs.Prelude.{◌≡◌};
ghost use Rattle.std.specs.List.{list_any};
ghost use Rattle.pg_grammar_form.specs.Literals.{is_empty_literal, is_long_literal};

use crate::limits::LITERAL_LIMIT;
use pg_text::{Characters, Texts};

/// Whether one of them is empty.
pub(crate) fn has_empty(texts: &Texts) -> bool
    ensures { result ≡ list_any is_empty_literal texts.now }
{
    texts.as_slice().iter().any(is_empty_literal)
}

/// Whether one of them has more than 1,024 characters.
pub(crate) fn has_long(texts: &Texts) -> bool
    ensures { result ≡ list_any is_long_literal texts.now }
{
    texts.as_slice().iter().any(is_long_literal)
}

/// Whether a literal is empty.
fn is_empty_literal(literal: &Characters) -> bool
    ensures { result ≡ is_empty_literal literal.now }
{
    literal.is_empty()
}

/// Whether a literal has more than 1,024 characters.
fn is_long_literal(literal: &Characters) -> bool
    ensures { result ≡ is_long_literal literal.now }
{
    literal.len() > LITERAL_LIMIT
}
