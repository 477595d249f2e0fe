//! Laws of every grammar with a verified certificate.
//!
//! A law is a function that does nothing when it runs: its clause is the law, and a caller gets the clause.

ghost use Rattle.pg_certificate_laws.specs.Certified.{OwnCertificateLinesAreVerified, OwnCertificatesAreNotRefuted, OwnCertificatesAreVerified};
ghost use Rattle.pg_certificate_laws.specs.Own.{OwnClaimsBreakNothing, OwnClaimsHold, OwnClaimsSayNoMore, OwnSetsAreClosed};
ghost use Rattle.pg_certificate_laws.specs.Verified.{VerifiedBytesAreNotRefuted, VerifiedGrammarsAreAccepted};

/// The law that a grammar with a verified certificate is accepted by its least sets and its step cost too: whatever
/// were wrong with it would also be wrong by the claims, which are no less.
pub fn verified_grammars_are_accepted()
    ensures { VerifiedGrammarsAreAccepted }
{}

/// The law that verified bytes aren't refuted: they are read as one certificate, whose claims give one set of facts. So
/// `pg_certificate_verify::verify` answers ok for them, or that memory ran out, and it answers ok for no others.
pub fn verified_bytes_are_not_refuted()
    ensures { VerifiedBytesAreNotRefuted }
{}

/// The law that the claims made from a grammar's own sets claim no more about its nodes than is true: neither which are nullable, nor which
/// starts begin and follow them. `Grammar::rules` ensures that bodies are nodes.
pub fn own_claims_say_no_more()
    ensures { OwnClaimsSayNoMore }
{}

/// The law that such claims are closed: of the five conditions, those on nullable rules, first and follow sets hold.
pub fn own_sets_are_closed()
    ensures { OwnSetsAreClosed }
{}

/// The law that such claims meet all five conditions, if the costs are the grammar's own: ranks fall along heads too, and no body
/// costs more by the claims than its claimed cost.
pub fn own_claims_hold()
    ensures { OwnClaimsHold }
{}

/// The law that such claims break no condition if nothing is wrong with the grammar: they claim its true sets and its true step
/// cost, and no others.
pub fn own_claims_break_nothing()
    ensures { OwnClaimsBreakNothing }
{}

/// The law that the own certificate of a grammar is verified if nothing is wrong with the grammar, as with each checked one: the claims of
/// the text hold, and no condition is broken by them.
pub fn own_certificates_are_verified()
    ensures { OwnCertificatesAreVerified }
{}

/// The law that this also holds with a line end after the certificate, as `pgw check --certificate` prints it.
pub fn own_certificate_lines_are_verified()
    ensures { OwnCertificateLinesAreVerified }
{}

/// The law that such a certificate isn't refuted: `pg_certificate_verify::verify` answers ok for it, or that memory ran out.
pub fn own_certificates_are_not_refuted()
    ensures { OwnCertificatesAreNotRefuted }
{}
