//! What is answered to a request about a document, as values of the Language Server Protocol.
//!
//! [`answer_to`] reads the document's characters and the position of each of its places once (`sheet`), and the others write what the crates on names, completion
//! and explanations answer: `places` and `renaming` on names, `outline` on items, `completing`, `signing` and `hovering` on what is at a place, `changing` on
//! what cures findings. Nothing is claimed but that the code is safe, ends, and fails only where memory runs out.
#![tactic(auto)]

mod answering;
mod asking;
mod changing;
mod completing;
mod hovering;
mod outline;
mod params;
mod places;
mod renaming;
mod sheet;
mod signing;

pub use answering::answer_to;
pub use asking::{Answer, Document, Question};
