//! The verification of a certificate: from the bytes of a grammar file and of a certificate to whether the certificate shows that the grammar is accepted.

ghost use Rattle.std.specs.Prelude.{◌≡◌, IfErr, OnOk};
ghost use Rattle.pg_pred.specs.Offer.{offer_of};
ghost use Rattle.pg_bench_grammar.specs.Files.{IsFaultOfFile};
ghost use Rattle.pg_bench_grammar.specs.Faults.{IfFile, IfNotVerified, IsVerdictRefusal, IsVerifyRefusal};
ghost use Rattle.pg_bench_grammar.specs.Verifying.{IsVerdict, IsVerdictOf, IsVerifiedFile};
ghost use Rattle.pg_certificate_verify.specs.Refuted.{FitsFault, IsVerified};
ghost use Rattle.pg_certificate_verify.specs.Texts.{fault_text};

use crate::bench_fault::BenchFault;
use crate::grammar_file::grammar_of;
use pg_certificate_verify::{VerifyFault, fault_text, verify};
use pg_grammar_value::Grammar;
use pg_pred::Registry;
use std::alloc::Global;

/// Judges whether the bytes of a certificate show that the grammar that a file spells is accepted, whoever made them (ours). The registry has the predicates
/// and builders that the file may name.
///
/// A fault of the file comes first. Then comes `NotVerified` with the first reason as it is printed: `V1 not JSON`, `V2 not a certificate`, `V3 RULE
/// CONDITION` if a claim isn't closed, or `V4 Cn RULE:NODE` if the claims break a condition of the check. Memory can run out at each step.
pub fn verify_bytes(
    alloc: Global,
    grammar: &[u8],
    registry: &Registry,
    certificate: &[u8],
) -> Result<(), BenchFault>
    ensures ok { OnOk result (IsVerifiedFile (offer_of registry.now) grammar.now certificate.now) }
    ensures err { IfErr result IsVerifyRefusal }
    ensures file { IfErr result (IfFile (IsFaultOfFile (offer_of registry.now) grammar.now)) }
    ensures refuted { IfErr result (IfNotVerified (IsVerdictOf (offer_of registry.now) grammar.now certificate.now)) }
{
    let grammar = grammar_of(alloc, grammar, registry)?;
    judge(alloc, &grammar, certificate)
}

/// Judges a certificate of a grammar.
fn judge(alloc: Global, grammar: &Grammar, certificate: &[u8]) -> Result<(), BenchFault>
    ensures ok { OnOk result (IsVerified grammar.now certificate.now) }
    ensures err { IfErr result IsVerdictRefusal }
    ensures refuted { IfErr result (IfNotVerified (IsVerdict grammar.now certificate.now)) }
{
    match verify(alloc, grammar, certificate) {
        Ok(()) => Ok(()),
        Err(VerifyFault::Memory) => Err(BenchFault::Memory),
        Err(fault) => Err(refuted(alloc, grammar, &fault)),
    }
}

/// The fault of a certificate that doesn't show that the grammar is accepted.
fn refuted(alloc: Global, grammar: &Grammar, fault: &VerifyFault) -> BenchFault
    requires { FitsFault grammar.now fault.now }
    ensures kind { IsVerdictRefusal result }
    ensures said { IfNotVerified (λ said. said ≡ fault_text grammar.now fault.now) result }
{
    match fault_text(alloc, grammar, fault) {
        Ok(verdict) => BenchFault::NotVerified(verdict),
        Err(_) => BenchFault::Memory,
    }
}
