//! Symbols for which builders have no use.

use pg_grammar_form::{Around, Form, Node};
use pg_tree::Shape;
use std::alloc::{AllocError, Global};

/// A builder that is handed a symbol, and the shape of its trees.
#[derive(Clone, Copy)]
struct Handed<'g> {
    builder: &'g str,
    symbol: &'g str,
    shape: &'g Shape,
}

/// What the builder of a node makes whatever its symbol, if the node hands it one for which it has no use.
pub(crate) fn idle_symbol(alloc: Global, node: &Node) -> Result<Option<String>, AllocError> {
    match handed_at(node) {
        Some(handed) => idle_words(alloc, handed),
        None => Ok(None),
    }
}

/// The builder that a node hands a symbol, which may be empty.
fn handed_at(node: &Node) -> Option<Handed<'_>> {
    match node {
        Form::Around(Around::Build(used, symbol), _) => Some(Handed {
            builder: used.name.as_str(),
            symbol: symbol.as_str(),
            shape: &used.shape,
        }),
        Form::Chain(_, used, _, _) => Some(Handed {
            builder: used.name.as_str(),
            symbol: used.symbol.as_str(),
            shape: &used.shape,
        }),
        Form::Leaf(_)
        | Form::Seq(_)
        | Form::Choice(_)
        | Form::Many(_)
        | Form::Rule(_)
        | Form::Expression(_, _)
        | Form::Around(
            Around::Try | Around::Text | Around::Skip | Around::Label(_) | Around::Local,
            _,
        ) => None,
    }
}

/// What the builder makes, unless it has a use for the symbol or there is none. A chain's shape is that of its symbol already.
fn idle_words(alloc: Global, handed: Handed<'_>) -> Result<Option<String>, AllocError> {
    let Handed {
        builder,
        symbol,
        shape,
    } = handed;
    if symbol.is_empty() {
        return Ok(None);
    }
    match shape {
        Shape::Symbol => Ok(None),
        Shape::Node(label) | Shape::Flat(label) => {
            labelled_words(alloc, builder, symbol, label.as_str())
        }
        Shape::Join => leaf_words(alloc, builder),
    }
}

/// The same of a builder whose nodes have this label.
fn labelled_words(
    alloc: Global,
    builder: &str,
    symbol: &str,
    label: &str,
) -> Result<Option<String>, AllocError> {
    if label == symbol {
        return Ok(None);
    }
    let words = format!(in alloc; "`{builder}` makes `{label}`, whatever the symbol")?;
    Ok(Some(words))
}

/// The same of a builder that makes leaves.
fn leaf_words(alloc: Global, builder: &str) -> Result<Option<String>, AllocError> {
    let words = format!(in alloc; "`{builder}` makes a leaf, whatever the symbol")?;
    Ok(Some(words))
}
