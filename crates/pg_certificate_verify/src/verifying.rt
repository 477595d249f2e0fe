//! Whether bytes are a certificate whose claims hold.
//!
//! A certificate may come from anywhere: the answer depends only on the claims being closed.

ghost use Rattle.std.specs.Prelude.{◌≡◌, ℕ, List, IfOk, IsErrOf};
ghost use Rattle.serde_json.specs.Data.{Data};
ghost use Rattle.pg_certificate.specs.Certificates.{IsCertificateText, IsJsonOf};
ghost use Rattle.pg_certificate.specs.declared.certificate.RuleClaim.{RuleClaim};
ghost use Rattle.pg_predict.specs.declared.violation.Broken.{Broken};
ghost use Rattle.pg_certificate_verify.specs.Judged.{said_by};
ghost use Rattle.pg_certificate_verify.specs.Lists.{nodes_of};
ghost use Rattle.pg_certificate_verify.specs.Verified.{ClaimsHold, ClaimFails};
ghost use Rattle.pg_certificate_verify.specs.declared.verify_fault.NotClosed.{NotClosed as Fault};

use crate::verdict::{ClaimedFacts, facts_by_claims, first_fault};
use crate::verify_fault::VerifyFault;
use pg_certificate::{CertificateFault, read_certificate};
use pg_grammar_value::Grammar;
use std::alloc::Global;

/// The facts by the claims of the certificate that these bytes are as JSON, if all claims hold. The error is `VerifyFault::NotJson` if they are no JSON
/// text, `VerifyFault::NotACertificate` if they are JSON of something else, and `VerifyFault::NotClosed` with the first claim that
/// fails. Whether the claims break a condition is left to be judged.
pub fn verify_claims(
    alloc: Global,
    grammar: &Grammar,
    bytes: &[u8],
) -> Result<ClaimedFacts, VerifyFault>
    ensures ok { IfOk result (λ facts. ClaimsHold grammar.now bytes.now (said_by facts) (nodes_of facts.sets)) }
    ensures not_json { IsErrOf result VerifyFault.NotJson → (value : Data) → ¬ (IsJsonOf bytes.now value) }
    ensures json { IsErrOf result VerifyFault.NotACertificate → (value : Data) × IsJsonOf bytes.now value }
    ensures not_a_certificate { IsErrOf result VerifyFault.NotACertificate →
        (certificate : List RuleClaim) → ¬ (IsCertificateText grammar.now bytes.now certificate) }
    ensures not_closed { (fault : Fault) → IsErrOf result (VerifyFault.NotClosed fault) → ClaimFails grammar.now bytes.now fault }
    ensures not_broken { (broken : Broken) → IsErrOf result (VerifyFault.Broken broken) → ⊥ }
{
    let certificate = match read_certificate(alloc, grammar, bytes) {
        Ok(certificate) => certificate,
        Err(fault) => return Err(fault_of(fault)),
    };
    let facts = facts_by_claims(alloc, grammar, &certificate)?;
    match first_fault(grammar, &certificate, &facts) {
        Some(fault) => Err(VerifyFault::NotClosed(fault)),
        None => Ok(facts),
    }
}

/// The fault if no certificate could be read.
fn fault_of(fault: CertificateFault) -> VerifyFault
    ensures json { result ≡ VerifyFault.NotJson → fault ≡ CertificateFault.NotJson }
    ensures certificate { result ≡ VerifyFault.NotACertificate → fault ≡ CertificateFault.NotACertificate }
    ensures no_claim { (claim : Fault) → result ≡ VerifyFault.NotClosed claim → ⊥ }
    ensures no_condition { (broken : Broken) → result ≡ VerifyFault.Broken broken → ⊥ }
{
    match fault {
        CertificateFault::NotJson => VerifyFault::NotJson,
        CertificateFault::NotACertificate => VerifyFault::NotACertificate,
        CertificateFault::Memory => VerifyFault::Memory,
    }
}
