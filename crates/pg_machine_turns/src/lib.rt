//! The turns of the machine that gives Parsec's four answers, on any grammar.
//!
//! A [`Machine`] runs a node by turns over a stack of frames, without recursion: a turn enters a node or passes an answer
//! to the topmost frame. One forest, one trail, one list of messages and one operator table serve the whole run. Frames keep
//! how long these were, so a failure is cut back and nothing is moved when a part ends. `specs/Tape.antt` gives each
//! turn as a function on lists, `specs/Turns.antt` as one on plain values. proofs/ shows that the two agree,
//! and that a run's answer is the one of the relation in `pg_language`, after two turns for each node but one for
//! the first.
#![tactic(auto)]

mod around;
mod chains;
mod choices;
mod declare;
mod enter;
mod errors;
mod expression;
mod frame;
mod frame_lists;
mod frames;
mod leaves;
mod machine;
mod parts;
mod rounds;
mod turn;

pub use errors::error_at_end;
pub use frame::{FrameRef, Mode, Reply};
pub use frames::Frames;
pub use machine::Machine;
pub use turn::Progress;
