//! Explanations of what is wrong with a grammar, for people.
//!
//! A finding is explained by the starts that meet, the rules and nodes through which each comes there, and a character that begins both. Nothing is claimed
//! here: the findings come from `pg_predict`, and a way goes along the edges of the sets, along which `pg_sets` is proved to pass starts on. The code is
//! proved to be safe and to end, and tests check its words.
#![tactic(auto)]

mod alternatives;
mod causes;
mod chains;
mod class_words;
mod emptiness;
mod finding_lines;
mod findings;
mod headlines;
mod marked;
mod meeting;
mod quoted;
mod recursion;
mod sections;
mod steps;
mod words;

pub use pg_explain_context::GrammarFile;
pub use pg_explain_recipes::Recipe;
pub use quoted::push_quoted;
pub use sections::{Explanation, Section, explain_findings};
pub use words::start_words;
