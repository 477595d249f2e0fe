//! A law on every certificate.

ghost use Rattle.std.specs.Prelude.{List};
ghost use Rattle.std.specs.List.{AllByRecursion};
ghost use Rattle.pg_grammar_value.specs.Grammar.{Grammar};
ghost use Rattle.pg_certificate.specs.declared.certificate.RuleClaim.{RuleClaim};
ghost use Rattle.pg_certificate.specs.Certificates.{IsCertificateText};
ghost use Rattle.pg_certificate.specs.Fitting.{FitsGrammar, IsStorableClaim};
ghost use Rattle.pg_certificate.specs.Values.{certificate_json};

/// The law that the text written for a certificate of a grammar is the JSON of that certificate: `read_certificate` gives the same
/// certificate, unless memory runs out. A certificate holds only classes, characters and numbers of limited size.
pub fn written_certificates_are_read()
    ensures { (grammar : Grammar) (claims : List RuleClaim) → AllByRecursion (IsStorableClaim grammar) claims → FitsGrammar grammar claims →
        IsCertificateText grammar (certificate_json grammar claims) claims }
{}
