//! Which starts can begin what a node of a grammar reads, and which can follow it.
//!
//! [`Sets::compute`] computes all of it once; the calls of [`Sets`] allocate no memory. Every set is the least that its
//! definition allows. First and follow sets form a graph (`flows`), and starts are handed on along its edges (`pg_graph`). The
//! starts of a grammar stand in one list, each once and in order, so a first or a follow set is a set of numbers. A caller with
//! sets of another origin, such as claims, makes them with the same edges and origins, and gives them to [`Sets::of`].
#![tactic(auto)]

mod flows;
mod origins;
mod readers;
mod sets;
mod start_sets;

pub use flows::{Marks, follow_of, join_node};
pub use origins::{Listing, add_own, listed, origins_of_nodes};
pub use sets::Sets;
