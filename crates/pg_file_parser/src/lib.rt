//! The items of a grammar file, read from its tokens.
//!
//! `specs/Reading.antt` and `specs/ItemReading.antt` define the parser as functions on lists of tokens, and the code is specified by them. That these read
//! exactly what `specs/Syntax.antt` of `pg_file_items` writes is proved apart from the code. Kinds and places of faults are only tested.
#![tactic(auto)]

mod allowance;
mod class;
mod error;
mod front;
mod head;
mod item;
mod items;
mod reserved;
mod text;
mod value;

pub use error::{SyntaxError, SyntaxFault};
pub use items::read_items;
