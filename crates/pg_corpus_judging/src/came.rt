//! What a text comes to by a grammar.

use pg_message::ParseError;
use pg_tree::Forest;

/// What a text comes to (ours).
#[derive(Drop)]
pub enum Came {
    /// The trees of its only derivation.
    Trees(Forest),
    /// Nothing derives it: the error of the start rule, or of the end of the text behind it.
    Error(ParseError),
}
