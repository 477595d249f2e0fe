//! Grammars: a [`Maker`] receives the parts of one, one after another, and finishes it.
//!
//! This crate re-exports the contents of a grammar (`pg_grammar_form`) and its readers (`pg_grammar_value`), so that code that makes grammars needs no other
//! crate. Layers that make none build on those two. A maker checks each part first (`judged`), and a refusal changes nothing. At the end each form gets the
//! numbers of its parts (`numbering`) and of what it names (`nodes`). The parts determine the grammar (`laws`).
#![tactic(auto)]

mod judged;
mod laws;
mod maker;
mod maker_fault;
mod names;
mod nodes;
mod numbering;
mod spelled;

pub use laws::grammars_are_unique;
pub use maker::Maker;
pub use maker_fault::{MakerFault, Unfinished};
pub use pg_grammar_form::{
    Around, BaseForm, BuilderUse, CLASS_LIMIT, ChainBuilder, ClassExpression, ClassId, ClassItem,
    ClassPart, Decl, Form, LITERAL_LIMIT, Leaf, NAME_LIMIT, NODE_LIMIT, NextForm, Node, NodeId,
    OPERATOR_LIMIT, OperatorBuilders, OperatorsItem, Parts, PredicateUse, RULE_LIMIT, Role, RuleId,
    Side, WORD_LIMIT, WordId, WordItem,
};
pub use pg_grammar_value::{
    AppliedOperator, AppliedOperators, Fixity, Grammar, Rule, Trail, TrailItem,
};
pub use pg_text::Texts;
