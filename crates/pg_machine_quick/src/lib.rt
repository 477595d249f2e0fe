//! Parsing by laid-out code, which goes by the next character and may give up.
#![tactic(auto)]

mod applying;
mod arms;
mod context;
mod expressions;
mod frame;
mod infix;
mod landmarks;
mod laws;
mod linking;
mod operators;
mod passing;
mod reading;
mod rows;
mod run;
mod running;
mod step;
mod tokens;
mod trees;
mod turn;

pub use frame::{Before, Frame, Operation};
pub use landmarks::{Landmark, MarkedPlan};
pub use laws::{code_answers, tapes_answer};
pub use operators::Found;
pub use passing::RowEnd;
pub use reading::Reading;
pub use run::attempt;
pub use running::Running;
pub use step::Step;
pub use tokens::{Taken, Token, Wrapped};
