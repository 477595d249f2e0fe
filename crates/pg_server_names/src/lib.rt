//! The names of a grammar file: what each is, where it is defined and used, and what may take its place.
//!
//! All goes by the tokens, so that it answers in files with faults too, while one types. `Surroundings` goes along the tokens and knows the item, the open
//! parentheses and the token before (`specs/Surroundings.antt`); `names` lists each name with what it is (`specs/Senses.antt`), and the answers are cut
//! out of that list (`specs/Asked.antt`). No place is ever looked for by going over the whole text again for each name.
#![tactic(auto)]

mod asked;
mod listing;
mod outline;
mod reading;
mod renaming;
mod sense;
mod standing;
mod surroundings;

pub use asked::{characters_in, name_at, places};
pub use listing::{names, names_of};
pub use outline::{Symbol, span_of_token, symbols};
pub use reading::tokens;
pub use renaming::{Refusal, RenameError, renamed};
pub use sense::{NameKind, Occurrence, Sense, Which};
pub use standing::{Before, Group, ItemWord, Next, Wanted, next_of, wanted_in};
pub use surroundings::Surroundings;
