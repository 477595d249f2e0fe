//! Operators read in texts.
//!
//! [`standing_at`] reads a place once where an operator may stand: the run of operator characters, which it looks up once, and the gap after it. Each row
//! then asks the [`Standing`] which of the row's operators is read there. The answer is the same as trying them one after another (`specs/Standings.antt`).
//! [`InForce`] has the operators of a table with all that the rows of an expression need to know of them.
#![tactic(auto)]

mod in_force;
mod standing;

pub use in_force::{InForce, RowRoles};
pub use standing::{Read, Standing, standing_at};
