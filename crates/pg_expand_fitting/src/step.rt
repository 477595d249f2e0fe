//! The steps through an operator tree.

use pg_grammar_value::AppliedOperator;

/// One step through an operator tree, from left to right.
#[derive(Clone, Copy)]
pub enum Step<'a> {
    /// A term is read.
    Term,
    /// The operator's symbol is read.
    Symbol(&'a AppliedOperator),
    /// The operator is applied to the last operands.
    Application(&'a AppliedOperator),
}
