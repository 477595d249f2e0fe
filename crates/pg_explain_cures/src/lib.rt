//! Changes of a grammar file that cure a finding.
//!
//! The changes that may help (`pg_explain_changes`) are tried in turn. Each changed file is read and checked (`judging`). A change is a cure only if the
//! finding is gone, there is no new one (`counting`), and each rule that it touches is related to the finding's rule (`near`). Of the cures, the one that
//! keeps the language best is reported (`pg_explain_comparison`). Nothing is claimed here, since calls that are proved found what a cure does. So the code is
//! only proved to be safe and to end, and tests check its answers.
#![tactic(auto)]

mod counting;
mod curing;
mod finding;
mod items;
mod judging;
mod near;
mod source;

pub use curing::{Cure, find_cure};
pub use finding::{Found, findings};
pub use source::{Bound, Source};
