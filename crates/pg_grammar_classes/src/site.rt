//! Where class expressions stand in a grammar.

use pg_grammar_form::{NodeId, WordId};

/// The place of a class expression in a grammar, outside its class items.
#[derive(Clone, Copy, Debug, PartialEq, Eq)]
pub enum ClassSite {
    /// The head of the word item.
    Head(WordId),
    /// The rest of the word item.
    Rest(WordId),
    /// The characters of operators, in the operators item.
    Operators,
    /// The characters of gaps, in the operators item.
    Gap,
    /// The node, which satisfies or refuses the expression, or declares.
    Node(NodeId),
}
