//! Replays a trail over a text, without any search, to the tree of the derivation that it records.
#![tactic(auto)]

mod around;
mod chains;
mod expressions;
mod laws;
mod leaves;
mod looseness;
mod operators;
mod replay_fault;
mod replayer;
mod rounds;
mod step;
mod task;
mod task_lists;
mod trails;

pub use laws::trails_tell_derivations;
pub use replay_fault::{Mismatch, ReplayFault, Stop};
pub use replayer::{Known, Replayer};
pub use task::{Chain, Closing, Halt, Leaving, Looseness, RoundStart, RoundsTask, ShortTask, Task};
pub use task_lists::{TaskKind, TaskLists};
pub use trails::replay;
