//! Whether a grammar is predictive, so that the next place of a text shows a parser which way to go, and if not, what is
//! wrong with it.
//!
//! [`check`] asks the questions of `pg_predict_conditions` at each node (`asking.rt`). A condition broken at a node is a violation, and its report
//! is a [`Finding`], which one module puts into words (`texts.rt`). An accepted grammar keeps its sets and its step cost; a refused one keeps
//! what is needed to find its findings, and [`Findings`] finds each anew without keeping it.
//!
//! [`first_broken`] judges claimed sets of a grammar by the same questions (`broken.rt`).
#![tactic(auto)]

mod asking;
mod at_node;
mod broken;
mod checked;
mod checking;
mod finding;
mod finding_lines;
mod findings;
mod finds;
mod laws;
mod places;
mod refused;
mod source;
mod texts;
mod violation;
mod way;

pub use at_node::FindingsAt;
pub use broken::{broken_text, first_broken};
pub use checked::Checked;
pub use checking::{CheckFault, check};
pub use finding::Finding;
pub use findings::Findings;
pub use laws::findings_speak_of_nodes;
pub use pg_predict_conditions::ViolationKind;
pub use places::{Place, body_of, place_of};
pub use refused::Refused;
pub use texts::Texts;
pub use violation::{Broken, code, condition_number};
