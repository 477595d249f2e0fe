//! The documents that an editor has open, as it last sent them.
#![tactic(auto)]

mod document;
mod documents;

pub use document::Document;
pub use documents::Documents;
