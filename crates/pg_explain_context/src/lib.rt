//! What the lines on findings need to know of a refused grammar and its file.
//!
//! [`Known`] answers questions about both: sets and what they contain, places, and forms as they were written. Ways go along the edges of the sets, and
//! `pg_sets` is proved to pass starts on along these edges. Only the character that two starts share is claimed here. Of the rest it is claimed that the code
//! is safe and ends.
#![tactic(auto)]

mod common;
mod contained;
mod fronts;
mod grammar_file;
mod known;
mod mentions;
mod paths;
mod ways;
mod written;

pub use common::common_character;
pub use contained::nullable_marks;
pub use fronts::front_use;
pub use grammar_file::GrammarFile;
pub use known::Known;
pub use mentions::{body_place, mention, place_in, place_text, rule_name, text_of};
pub use paths::{dead_ends, shortest_way};
pub use ways::{SetOf, way_of_start};
pub use written::{push_position, span_of, written_at};
