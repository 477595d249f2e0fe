//! The lists of a run, and the levels of an expression over them.
//!
//! One forest, one trail and one list of messages serve a whole run: [`Lists`]. While its term runs, an expression has a
//! level for each row of its operators. [`Lists::down`] begins rows, [`Lists::climb`] passes the term's outcome from level to
//! level, and [`Lists::fail_levels`] does so with its failure. `specs/TapeLevels.antt` gives each of these as a
//! function on lists; pg_machine_turns proves that they treat rows as the relation of answers does.
#![tactic(auto)]

mod build;
mod climb;
mod descend;
mod ends;
mod follow;
mod level;
mod levels;
mod lists;
mod operand;
mod run_forest;
mod said;
mod stretch;
mod together;

pub use build::{build_after, build_chain};
pub use level::{Climbed, Context, ExpressionFrame, Failure, Given, Level, Setting, Stretch};
pub use levels::Levels;
pub use lists::Lists;
pub use run_forest::RunForest;
