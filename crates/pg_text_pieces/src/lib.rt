//! Lines made up of pieces, printed or written through a buffer, so that they take no memory.
//!
//! A [`Piece`] is a text or a number. [`put_pieces`] puts pieces into a buffer of a fixed size. The buffer goes to the writer when it is full, and at the end
//! ([`send`]).
#![tactic(auto)]

mod output;
mod piece;

pub use output::{Stopped, put, put_pieces, send};
pub use piece::{Piece, show_pieces};
