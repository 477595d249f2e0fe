//! A class item of a grammar: a class expression with a name.
//!
//! Expressions name class items by their numbers, and an item names only items before it. That is an invariant of the
//! grammar that holds the item.

use crate::class::ClassExpression;
use pg_text::Characters;

/// A class expression with the name that a grammar file uses for it.
#[derive(Drop)]
pub struct ClassItem {
    /// Its name, which no other class item of its grammar has.
    pub name: Characters,
    /// The set that it names.
    pub class: ClassExpression,
}
