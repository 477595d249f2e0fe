//! What can be written at a place of a grammar file, and the form whose parentheses are open around it.
//!
//! All goes by the tokens before the place, so that it answers while one types: `pg_server_names` goes along them. `lines` has the words and what is said of
//! each, `spot` what stands around a place, `wishes` what is wanted there, `offers` cuts the answer out of both, and `signature` shows a form's parts.
#![tactic(auto)]

mod lines;
mod offers;
mod signature;
mod spot;
mod wishes;

pub use lines::{Line, form_line, name_line};
pub use offers::{Completion, Offer, WordKind, completion_at};
pub use signature::{Signature, signature_at};
