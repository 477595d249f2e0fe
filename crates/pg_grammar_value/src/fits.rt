//! Whether a registry has what a grammar names.
//!
//! A grammar keeps the class of each predicate and the shape of each builder that it names. A registry fits it if it has them all, under these names, with
//! these classes and shapes. Whoever runs a grammar with a registry owes that.

ghost use Rattle.std.specs.Prelude.{◌≡◌, ◌↔◌, Some, IsTrue, option_copied};
ghost use Rattle.pg_pred.specs.Offer.{offer_of, predicate_class};
ghost use Rattle.pg_grammar_form.specs.Contents.{class_parts, builders_in, chain_builder_in, all_builders};
ghost use Rattle.pg_grammar_value.specs.Fits.{PartFits, ClassFits, BuilderFits, BuildersFit, ChainFits, ItemsFit, WordFits, WordsFit, OperatorsFit, NodeFits, NodesFit, Fits};

use crate::grammar::Grammar;
use pg_grammar_form::{
    Around, BuilderUse, ChainBuilder, ClassExpression, ClassItem, ClassPart, Form, Node,
    OperatorBuilders, OperatorsItem, PredicateUse, WordItem,
};
use pg_pred::Registry;

impl Grammar {
    /// Whether the registry has each predicate that the grammar names, with the same class, and each builder, with the
    /// same shape. It takes no memory.
    pub fn fits(&self, registry: &Registry) -> bool
        ensures { IsTrue result ↔ Fits (offer_of registry.now) self.now }
    {
        items_fit(registry, self.class_items())
            && words_fit(registry, self.word_items())
            && operators_fit(registry, self.operators_item())
            && nodes_fit(registry, self.nodes())
    }
}

/// Whether the registry has the predicates that the class items name.
fn items_fit(registry: &Registry, items: &[ClassItem]) -> bool
    ensures { IsTrue result ↔ ItemsFit (offer_of registry.now) items.now }
{
    for item in items {
        if !class_fits(registry, &item.class) {
            return false;
        }
    }
    true
}

/// Whether the registry has the predicates and builders that the nodes name.
fn nodes_fit(registry: &Registry, nodes: &[Node]) -> bool
    ensures { IsTrue result ↔ NodesFit (offer_of registry.now) nodes.now }
{
    for node in nodes {
        if !node_fits(registry, node) {
            return false;
        }
    }
    true
}

/// Whether the registry has the predicates that the word items name.
fn words_fit(registry: &Registry, words: &[WordItem]) -> bool
    ensures { IsTrue result ↔ WordsFit (offer_of registry.now) words.now }
{
    for word in words {
        if !word_fits(registry, word) {
            return false;
        }
    }
    true
}

/// Whether the registry has the predicates that a word item names.
fn word_fits(registry: &Registry, word: &WordItem) -> bool
    ensures { IsTrue result ↔ WordFits (offer_of registry.now) word.now }
{
    class_fits(registry, &word.head) && class_fits(registry, &word.rest)
}

/// Whether the registry has the predicates that the operators item names, if there is one.
fn operators_fit(registry: &Registry, operators: Option<&OperatorsItem>) -> bool
    ensures { IsTrue result ↔ OperatorsFit (offer_of registry.now) (option_copied operators.entry) }
{
    match operators {
        Some(item) => class_fits(registry, &item.class) && class_fits(registry, &item.gap),
        None => true,
    }
}

/// Whether the registry has the predicates and builders that a node names.
fn node_fits(registry: &Registry, node: &Node) -> bool
    ensures { IsTrue result ↔ NodeFits (offer_of registry.now) node.now }
{
    node_class_fits(registry, node)
        && node_builders_fit(registry, node)
        && node_chain_fits(registry, node)
}

/// Whether the registry has each predicate that a node names.
fn node_class_fits(registry: &Registry, node: &Node) -> bool
    ensures { IsTrue result ↔ ClassFits (offer_of registry.now) (class_parts node.now) }
{
    match node.class() {
        Some(class) => class_fits(registry, class),
        None => true,
    }
}

/// Whether the registry has the builder of a chain, if the node is one.
fn node_chain_fits(registry: &Registry, node: &Node) -> bool
    ensures { IsTrue result ↔ ChainFits (offer_of registry.now) (chain_builder_in node.now) }
{
    match node {
        Form::Chain(_, used, _, _) => has_chain_builder(registry, used),
        Form::Leaf(_)
        | Form::Seq(_)
        | Form::Choice(_)
        | Form::Many(_)
        | Form::Rule(_)
        | Form::Expression(_, _)
        | Form::Around(_, _) => true,
    }
}

/// Whether the registry has this builder, with the same shape for the symbol.
fn has_chain_builder(registry: &Registry, used: &ChainBuilder) -> bool
    ensures { IsTrue result ↔ ChainFits (offer_of registry.now) (Some used.now) }
{
    match registry.builder(used.name.as_str()) {
        Some(builder) => used.is_of(builder.shape()),
        None => false,
    }
}

/// Whether the registry has each builder that a node names, if it is no chain.
fn node_builders_fit(registry: &Registry, node: &Node) -> bool
    ensures { IsTrue result ↔ BuildersFit (offer_of registry.now) (builders_in node.now) }
{
    match node {
        Form::Around(Around::Build(used, _), _) => has_builder(registry, used),
        Form::Expression(builders, _) => has_builders(registry, builders),
        Form::Leaf(_)
        | Form::Seq(_)
        | Form::Choice(_)
        | Form::Many(_)
        | Form::Chain(_, _, _, _)
        | Form::Rule(_)
        | Form::Around(
            Around::Try | Around::Text | Around::Skip | Around::Label(_) | Around::Local,
            _,
        ) => true,
    }
}

/// Whether the registry has the builders of an expression.
fn has_builders(registry: &Registry, builders: &OperatorBuilders) -> bool
    ensures { IsTrue result ↔ BuildersFit (offer_of registry.now) (all_builders builders.now) }
{
    has_builder(registry, &builders.infix)
        && has_builder(registry, &builders.prefix)
        && has_builder(registry, &builders.postfix)
}

/// Whether the registry has each predicate that a class expression names.
fn class_fits(registry: &Registry, class: &ClassExpression) -> bool
    ensures { IsTrue result ↔ ClassFits (offer_of registry.now) class.now }
{
    let parts = class.parts();
    for part in parts {
        if !part_fits(registry, part) {
            return false;
        }
    }
    true
}

/// Whether the registry has the predicate that a part names, if it names one.
fn part_fits(registry: &Registry, part: &ClassPart) -> bool
    ensures { IsTrue result ↔ PartFits (offer_of registry.now) part.now }
{
    match part {
        ClassPart::Predicate(used) => has_predicate(registry, used),
        ClassPart::Literal(_)
        | ClassPart::Range(_, _)
        | ClassPart::Union(_)
        | ClassPart::Complement
        | ClassPart::Class(_) => true,
    }
}

/// Whether the registry has this predicate, with the same class.
fn has_predicate(registry: &Registry, used: &PredicateUse) -> bool
    ensures { IsTrue result ↔ (predicate_class (offer_of registry.now) used.now.name ≡ Some used.now.class) }
{
    match registry.predicate(used.name.as_str()) {
        Some(predicate) => predicate.class().equals(&used.class),
        None => false,
    }
}

/// Whether the registry has this builder, with the same shape.
fn has_builder(registry: &Registry, used: &BuilderUse) -> bool
    ensures { IsTrue result ↔ BuilderFits (offer_of registry.now) used.now }
{
    match registry.builder(used.name.as_str()) {
        Some(builder) => builder.shape().equals(&used.shape),
        None => false,
    }
}
