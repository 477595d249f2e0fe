//! Positions of places in documents, as the Language Server Protocol counts them.
//!
//! A place counts the characters before it. A position is a line and, in that line, units of UTF-16 or of UTF-8, both from 0; a line ends with a line feed,
//! with a carriage return and a line feed, or with a carriage return alone. These are no columns: a tab is one unit. [`positions_of`] goes through a document
//! once for the positions of all its places, and [`place_of`] once for the place of one position.
#![tactic(auto)]

mod cursor;
mod laws;
mod place;
mod position;
mod positions;

pub use laws::positions_lead_back;
pub use place::place_of;
pub use position::{Encoding, Position};
pub use positions::positions_of;
