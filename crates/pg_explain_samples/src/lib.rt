//! Samples: short drafts of a grammar's texts, each with the choices made on the way. These are the trail of a derivation.
//!
//! The cost of a shortest text of each node is worked out once (`basis`, `shortest`). A way is sought from the start rule to a node (`ways`), and a text is
//! drafted along it (`drafting`), with shortest texts wherever nothing else is wanted. The caller has another crate check that the grammar derives the draft:
//! nothing is claimed here.
#![tactic(auto)]

mod above;
mod basis;
mod characters;
mod drafting;
mod entering;
mod forms;
mod guide;
mod leading;
mod leaves;
mod letters;
mod operators;
mod random;
mod shortest;
mod steps;
mod target;
mod trail;
mod ways;

pub use basis::Basis;
pub use characters::character_of;
pub use drafting::{Draft, Field, Plan, make_draft};
pub use forms::{alternatives, form_at};
pub use guide::Fronts;
pub use shortest::Costs;
pub use target::{Pick, Target, Task, Want};
pub use trail::trail_of;
pub use ways::{Search, Step, way_to};
