//! What a verified certificate shows of its grammar, whoever made it (`pg_certificate_verify`).
#![tactic(auto)]

mod laws;

pub use laws::{
    own_certificate_lines_are_verified, own_certificates_are_not_refuted,
    own_certificates_are_verified, own_claims_break_nothing, own_claims_hold,
    own_claims_say_no_more, own_sets_are_closed, verified_bytes_are_not_refuted,
    verified_grammars_are_accepted,
};
