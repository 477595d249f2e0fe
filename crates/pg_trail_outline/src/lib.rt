//! Trees for people to read, with the line and the column at which each node begins.
//!
//! A tree is printed as it was proved to be derived. The places where its nodes begin are found by replaying its trail
//! (`pg_trail_places`). Nothing is claimed about the output: the code must be safe and end, and tests check the output.
#![tactic(auto)]

mod forest_lines;
mod outline;
mod outline_page;

pub use outline::write_outline;
pub use pg_trail_places::DerivedText;
