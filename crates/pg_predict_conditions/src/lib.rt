//! Violations: where a grammar leaves open which way a parser must go at the next place of a text.
//!
//! A [`Judge`] has the facts of a grammar. Questions about each node (`judging.rt`) use them, in a module for each kind of form:
//! `choices.rt`, `repetitions.rt`, `expressions.rt` and `declarations.rt`. `recursion.rt` finds the rules that head themselves, and
//! `costly.rt` whether the step cost (`pg_predict_costs`) is above the limit. A condition broken at a node is a violation
//! (`violation.rt`). `pg_predict` decides whether a grammar is accepted, and reports what is wrong.
#![tactic(auto)]

mod bounds;
mod choices;
mod costly;
mod declarations;
mod expressions;
mod judge;
mod judging;
mod meetings;
mod met_starts;
mod noting;
mod operator_facts;
mod recursion;
mod repetitions;
mod suspects;
mod violation;

pub use judge::Judge;
pub use judging::{ask_node, node_questions, series_count};
pub use violation::ViolationKind;
