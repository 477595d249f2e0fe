//! The messages of errors while a run lasts.
//!
//! A run merges, drops and relabels far more errors than it prints. So its messages lie on one list, a [`MessageTape`], and each of them is a few words that
//! point into the grammar and the text. An error of an answer is a position on that list, and gets texts only if it is reported in the end.
//! `specs/TapeErrors.antt` says which errors of `pg_language` the positions stand for. The proofs show that merging and relabelling on the list agree with
//! what the relation of answers does to errors. The steps of the machine rely on it.
#![tactic(auto)]

mod message;
mod message_tape;
mod repeated;
mod texts;

pub use message::{Message, Sided};
pub use message_tape::{KeptError, MessageTape, TapeError};
pub use texts::told;
