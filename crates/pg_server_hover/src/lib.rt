//! What is said of the rule or the form at a place of a grammar file: whether it can be empty, how it can begin, what can follow it, and its rank.
//!
//! The facts are those of the sets (`pg_sets`), and starts have the words that explanations have (`pg_explain`). `target` finds what is at the place, `page`
//! writes about it. Nothing is claimed but that the code is safe and ends.
#![tactic(auto)]

mod page;
mod target;

pub use page::{Hover, hover_at};
pub use target::HoverFile;
