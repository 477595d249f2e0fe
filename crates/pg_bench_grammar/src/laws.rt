//! Laws that connect the check of a grammar file with the verification of its certificate.
//!
//! A law is a function that does nothing when it runs. Its contract is the law, and a call makes it known.

ghost use Rattle.pg_bench_grammar.specs.Laws.{PrintedCertificatesAreVerified, VerifiedFilesAreAccepted};

use pg_certificate_laws::{own_certificate_lines_are_verified, verified_grammars_are_accepted};

/// The law that the check accepts every grammar file for which some bytes are verified as a certificate, whoever made them.
pub fn verified_files_are_accepted()
    ensures { VerifiedFilesAreAccepted }
{
    verified_grammars_are_accepted();
}

/// The law that the certificate that the check prints of a grammar file is verified.
pub fn printed_certificates_are_verified()
    ensures { PrintedCertificatesAreVerified }
{
    own_certificate_lines_are_verified();
}
