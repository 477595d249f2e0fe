//! Trees with places: the stretch of the text that each leaf's and each node's form read, and their JSON.
//!
//! A forest says nothing of places. They are found by replaying the trail of its derivation (`walk`), with a list of stretches beside the forest
//! (`stretches`). That walk claims nothing. So the forest's leaves and nodes are put together with the stretches (`reading`), it is checked that they lie as
//! trees lie in a text (`order`), and only then the page is written (`page`).
#![tactic(auto)]

mod declared;
mod derived;
mod order;
mod page;
mod piece;
mod placed;
mod positions;
mod reading;
mod single_characters;
mod stretch;
mod stretches;
mod walk;

pub use derived::DerivedText;
pub use placed::{PlacesFault, write_placed};
pub use stretch::Stretch;
pub use walk::stretches_along;
