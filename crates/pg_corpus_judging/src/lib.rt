//! What a text comes to by a grammar, compared with what a case of a corpus wants.
//!
//! A text comes to trees or to an error (`came`). What is wanted is compared with these, printed as a case has them (`judging`); `error_lines` has the lines of an error. The answer is
//! a `Trial` (`trial`): passed, failed with what came instead, or not tried. `specs/Judging.antt` says what a passed case means. This crate runs no grammar.
#![tactic(auto)]

mod came;
mod error_lines;
mod judging;
mod laws;
mod trial;

pub use came::Came;
pub use judging::came_instead;
pub use laws::{texts_come_to_one_end, underivable_texts_pass_as_errors};
pub use trial::{Trial, trial_for, trial_of, untried};
