//! What stands at a finding's node, if a parser can lose a derivation there.

use pg_grammar_form::{Form, NodeId};
use pg_grammar_value::Grammar;

/// What stands at a node. A part of it tells its frames and tasks from those of other nodes.
#[derive(Clone, Copy)]
pub(crate) enum Site {
    /// A choice.
    Choice,
    /// A repetition of this part.
    Many(NodeId),
    /// A chain with this separator.
    Chain(NodeId),
    /// An expression over this term.
    Expression(NodeId),
    /// Anything else, which has no alternatives, rounds or operators.
    Other,
}

impl Site {
    /// Whether it is a choice.
    pub(crate) fn is_choice(&self) -> bool {
        matches!(self, Site::Choice)
    }

    /// Whether it is an expression.
    pub(crate) fn is_expression(&self) -> bool {
        matches!(self, Site::Expression(_))
    }

    /// Whether it has rounds or terms.
    pub(crate) fn has_steps(&self) -> bool {
        match self {
            Site::Many(_) | Site::Chain(_) | Site::Expression(_) => true,
            Site::Choice | Site::Other => false,
        }
    }

    /// Whether it is a repetition of this part.
    pub(crate) fn repeats(&self, node: NodeId) -> bool {
        match self {
            Site::Many(part) => *part == node,
            Site::Choice | Site::Chain(_) | Site::Expression(_) | Site::Other => false,
        }
    }

    /// Whether it is a chain with this separator.
    pub(crate) fn separates(&self, node: NodeId) -> bool {
        match self {
            Site::Chain(separator) => *separator == node,
            Site::Choice | Site::Many(_) | Site::Expression(_) | Site::Other => false,
        }
    }

    /// Whether it is an expression over this term.
    pub(crate) fn has_term(&self, node: NodeId) -> bool {
        match self {
            Site::Expression(term) => *term == node,
            Site::Choice | Site::Many(_) | Site::Chain(_) | Site::Other => false,
        }
    }
}

/// What stands at the node.
pub(crate) fn site_of(grammar: &Grammar, node: NodeId) -> Site {
    match grammar.nodes().get(node.index()) {
        Some(Form::Choice(_)) => Site::Choice,
        Some(Form::Many(part)) => Site::Many(*part),
        Some(Form::Chain(_, _, _, separator)) => Site::Chain(*separator),
        Some(Form::Expression(_, term)) => Site::Expression(*term),
        Some(Form::Leaf(_) | Form::Seq(_) | Form::Rule(_) | Form::Around(_, _)) | None =>
            Site::Other,
    }
}

/// Whether a choice of at least one alternative stands at the node.
pub(crate) fn has_alternatives(grammar: &Grammar, node: NodeId) -> bool {
    match grammar.nodes().get(node.index()) {
        Some(form) => match form.alternatives() {
            Some(parts) => !parts.as_slice().is_empty(),
            None => false,
        },
        None => false,
    }
}

/// Whether an expression stands at the node.
pub(crate) fn is_expression(grammar: &Grammar, node: NodeId) -> bool {
    matches!(
        grammar.nodes().get(node.index()),
        Some(Form::Expression(_, _))
    )
}
