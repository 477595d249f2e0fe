//! Certificates: claims which show that a grammar is accepted, made by anyone; written as JSON, and read again.
//!
//! A certificate claims for each rule whether it is nullable, its rank, its step cost, and its first and its follow set
//! (`certificate`). Its text is compact (`write`). A file of one may come from anywhere: `serde_json` reads the value, and this
//! crate compares it with the form of a certificate of the grammar (`read`, `read_start`, `read_class`). Whether claims hold is judged
//! elsewhere.
#![tactic(auto)]

mod certificate;
mod certificate_fault;
mod laws;
mod member;
mod read;
mod read_class;
mod read_start;
mod write;
mod write_start;

pub use certificate::{Certificate, ClaimedStart, ClaimedStarts, RuleClaim};
pub use certificate_fault::CertificateFault;
pub use laws::written_certificates_are_read;
pub use read::read_certificate;
pub use write::write_certificate;
