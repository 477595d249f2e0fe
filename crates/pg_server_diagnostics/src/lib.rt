//! What is wrong with a document, with its places: the faults of a grammar file, the findings of a refused grammar and the notes on an accepted one.
//!
//! All of it is values with ranges of characters, and knows no protocol. The messages are those of `pgw check --json`. No text and no change is tried, so
//! that this can be asked for at each keystroke.
#![tactic(auto)]

mod diagnosed;
mod diagnostic;
mod faults;
mod findings;
mod notes;
mod others;
mod pages;
mod places;

pub use diagnosed::{MOST, diagnostics_of};
pub use diagnostic::{Diagnostic, Other, Severity};
pub use pages::page_of;
