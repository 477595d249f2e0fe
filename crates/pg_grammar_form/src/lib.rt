//! The contents of grammars: forms, class expressions, items, declarations, and their numbers and names.
//!
//! A [`Form`] is part of a rule's body as callers pass it, or a node of a grammar; one type serves both. Code that reads, prints or replaces forms needs no
//! grammar. That a number names something is an invariant of the grammar that holds it, and this crate knows nothing of it.
#![tactic(auto)]

mod class;
mod class_item;
mod decl;
mod form;
mod limits;
mod number;
mod operators_item;
mod parts;
mod side;
mod texts;
mod used;
mod word_item;

pub use class::{ClassExpression, ClassPart};
pub use class_item::ClassItem;
pub use decl::{Decl, Role};
pub use form::{Around, BaseForm, Form, Leaf, NextForm, Node};
pub use limits::{
    CLASS_LIMIT, LITERAL_LIMIT, NAME_LIMIT, NODE_LIMIT, OPERATOR_LIMIT, RULE_LIMIT, WORD_LIMIT,
    characters_in,
};
pub use number::{ClassId, NodeId, RuleId, WordId};
pub use operators_item::OperatorsItem;
pub use parts::Parts;
pub use side::Side;
pub use used::{BuilderUse, ChainBuilder, OperatorBuilders, PredicateUse};
pub use word_item::WordItem;
