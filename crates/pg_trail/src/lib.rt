//! Trails as JSON: written, and read again.
//!
//! A trail is a compact array with an object for each item. Its text is built whole in memory, in time linear in the trail, before
//! anything is written. A file of a trail is read token by token, and only its items are kept.
//! `specs/TrailJson.antt` defines the value of a trail, and `serde_json` the value of bytes. The program prints and replays trails with it.
#![tactic(auto)]

mod count;
mod item;
mod laws;
mod operators;
mod read;
mod skip;
mod trail_fault;
mod write;

pub use laws::written_trails_are_read;
pub use read::read_trail;
pub use trail_fault::TrailFault;
pub use write::write_trail;
