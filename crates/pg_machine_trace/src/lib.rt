//! Traces: a run of a grammar, reported rule by rule while it goes on.
//!
//! A tracer watches the run that answers (`tracer.rt`). Before each turn the machine's mode and its topmost frame determine what to report
//! (`teller.rt`): that a rule is entered or left, or that a choice loses alternatives because one of them consumed and failed. Nothing is claimed
//! about the written lines, and the run's result is proved in `pg_machine`. This code must be safe and end, and tests check its lines.
#![tactic(auto)]

mod choices;
mod quoted;
mod replies;
mod stretch;
mod teller;
mod trace_lines;
mod tracer;

pub use tracer::{Tracer, rule_named};
