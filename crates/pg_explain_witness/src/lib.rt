//! Texts that show what is wrong with a grammar, each of which was run.
//!
//! A candidate is a text with the trail of a derivation. It is drafted from the grammar (`pg_explain_samples`) along a way from the start rule to the node
//! that a finding names, as is useful for that finding (`candidates`). Two calls that are proved elsewhere judge it (`judging`): `replay`, whether the
//! grammar derives the text along the trail, and `probe_watched`, what Parsec answers. So nothing is claimed of how candidates are made.
//!
//! A candidate shows a finding only if the node that the finding names loses the derivation. What the derivation does at the node (`derived`) is compared,
//! place by place, with what the run does there (`watch`), and a run that never ends has to get stuck at the node (`halting`). What was noted is asked once
//! more, of the derivation's trail (`going`) and of the machine (`answering`), so that it is proved (`losing`, `stopping`).
#![tactic(auto)]

mod answering;
mod asks;
mod bound;
mod candidates;
mod common;
mod derived;
mod found;
mod going;
mod guides;
mod halting;
mod judging;
mod losing;
mod met;
mod notes;
mod site;
mod stopping;
mod trails;
mod trials;
mod watch;
mod witness;

pub use bound::Bound;
pub use found::Witness;
pub use judging::Shown;
pub use witness::Seeker;
