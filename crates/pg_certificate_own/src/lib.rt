//! The least certificate of a grammar: its own sets and step costs, as claims about each rule.
//!
//! The caller gives sets and costs, or a checked grammar, whose certificate is made as text (`own`). Starts are in
//! the order of the sets, each once.
#![tactic(auto)]

mod laws;
mod least;
mod own;
mod starts;

pub use laws::{least_certificates_fit, least_claims_are_the_sets};
pub use least::least_certificate;
pub use own::own_certificate;
