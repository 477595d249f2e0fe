//! Bytes to a certificate of a grammar.
//!
//! `serde_json` reads the value. This module and those beside it take the value apart, with one function for each kind of value in a
//! certificate. None is recursive, so no stack grows with the depth of a value.

ghost use Rattle.std.specs.Prelude.{◌≡◌, ◌↔◌, ℕ, List, map, IfOk, IsErrOf, IsTrue};
ghost use Rattle.std.specs.Str.{encode_utf8_all};
ghost use Rattle.serde_json.specs.Data.{Data};
ghost use Rattle.serde_json.specs.Errors.{IsMemory};
ghost use Rattle.serde_json.specs.View.{view};
ghost use Rattle.pg_grammar_value.specs.Grammar.{rule_name};
ghost use Rattle.pg_certificate.specs.Claims.{Each, SaysEach};
ghost use Rattle.pg_certificate.specs.Certificates.{claim_rule, SaysClaim, SaysRules, SaysCertificate, IsJsonOf, IsCertificateText};
ghost use Rattle.pg_certificate.specs.Readings.{Gives};
ghost use Rattle.pg_certificate.specs.declared.certificate.RuleClaim.{RuleClaim};

use crate::certificate::{Certificate, RuleClaim};
use crate::certificate_fault::CertificateFault;
use crate::member::{are_same, flag_under, key_count, number_under, rank_under, text_under};
use crate::read_start::starts_under;
use pg_grammar_value::{Grammar, Rule};
use serde_json::Value;
use std::alloc::Global;

/// The certificate of the grammar that these bytes are as JSON, with any white space. The error is `CertificateFault::NotJson` if `serde_json`
/// reads no value, and `CertificateFault::NotACertificate` if the value is something else. The last value of a key that is given twice
/// counts.
#[tactic(auto, using(crate::proofs::Claims::no_text_of))]
pub fn read_certificate(
    alloc: Global,
    grammar: &Grammar,
    bytes: &[u8],
) -> Result<Certificate, CertificateFault>
    ensures ok { IfOk result (λ certificate. IsCertificateText grammar.now bytes.now certificate) }
    ensures only { IfOk result (λ certificate. (other : List RuleClaim) → IsCertificateText grammar.now bytes.now other → other ≡ certificate) }
    ensures not_json { IsErrOf result CertificateFault.NotJson → (value : Data) → ¬ (IsJsonOf bytes.now value) }
    ensures json { IsErrOf result CertificateFault.NotACertificate → (value : Data) × IsJsonOf bytes.now value }
    ensures not_a_certificate { IsErrOf result CertificateFault.NotACertificate →
        (certificate : List RuleClaim) → ¬ (IsCertificateText grammar.now bytes.now certificate) }
{
    let value = match Value::from_slice(alloc, bytes) {
        Ok(value) => value,
        Err(error) => return Err(fault_of(&error)),
    };
    read_value(alloc, grammar, &value)
}

/// The fault if `serde_json` could read no value.
fn fault_of(error: &serde_json::Error) -> CertificateFault
    ensures no_json { result ≡ CertificateFault.NotJson → ¬ (IsMemory error.now) }
    ensures no_value { ¬ (result ≡ CertificateFault.NotACertificate) }
{
    if error.is_memory() {
        CertificateFault::Memory
    } else {
        CertificateFault::NotJson
    }
}

/// The value as a certificate.
fn read_value(
    alloc: Global,
    grammar: &Grammar,
    value: &Value,
) -> Result<Certificate, CertificateFault>
    ensures { Gives (SaysCertificate grammar.now) (view value.now) result }
{
    if key_count(value) != 1 {
        return Err(CertificateFault::NotACertificate);
    }
    match value.get("rules") {
        Some(inner) => read_rules(alloc, grammar, inner),
        None => Err(CertificateFault::NotACertificate),
    }
}

/// The value as claims, if it has one for each rule in file order.
#[tactic(auto, using(crate::proofs::Claims::rules_refused, crate::proofs::Claims::rules_given, crate::proofs::Claims::not_rules))]
fn read_rules(
    alloc: Global,
    grammar: &Grammar,
    value: &Value,
) -> Result<Certificate, CertificateFault>
    ensures { Gives (SaysRules grammar.now) (view value.now) result }
{
    let certificate = read_claims(alloc, grammar, value)?;
    if are_of_rules(certificate.claims(), grammar.rules()) {
        Ok(certificate)
    } else {
        Err(CertificateFault::NotACertificate)
    }
}

/// Whether there is one claim for each rule, in file order.
fn are_of_rules(claims: &[RuleClaim], rules: &[Rule]) -> bool
    ensures { IsTrue result ↔ (map claim_rule claims.now ≡ map rule_name rules.now) }
{
    if claims.len() != rules.len() {
        return false;
    }
    for place in 0..claims.len() {
        if !are_same(claims[place].rule.as_slice(), rules[place].name.as_slice()) {
            return false;
        }
    }
    true
}

fn read_claims(
    alloc: Global,
    grammar: &Grammar,
    value: &Value,
) -> Result<Certificate, CertificateFault>
    ensures { Gives (SaysEach (SaysClaim grammar.now)) (view value.now) result }
{
    match value.as_array() {
        Some(list) => read_each_claim(alloc, grammar, list.as_slice()),
        None => Err(CertificateFault::NotACertificate),
    }
}

fn read_each_claim(
    alloc: Global,
    grammar: &Grammar,
    list: &[Value],
) -> Result<Certificate, CertificateFault>
    ensures { Gives (Each (SaysClaim grammar.now)) (map view list.now) result }
{
    let mut certificate = Certificate::new(alloc);
    for value in list {
        certificate.push(read_claim(alloc, grammar, value)?)?;
    }
    Ok(certificate)
}

/// The value as a claim about a rule.
#[tactic(auto, using(crate::proofs::Claims::first_refused, crate::proofs::Claims::follow_refused, crate::proofs::Claims::cost_refused, crate::proofs::Claims::nullable_refused, crate::proofs::Claims::rank_refused, crate::proofs::Claims::rule_refused, crate::proofs::Claims::claim_given))]
fn read_claim(
    alloc: Global,
    grammar: &Grammar,
    value: &Value,
) -> Result<RuleClaim, CertificateFault>
    ensures { Gives (SaysClaim grammar.now) (view value.now) result }
{
    if key_count(value) != 6 {
        return Err(CertificateFault::NotACertificate);
    }
    let cost = number_under(value, "h")?;
    let nullable = flag_under(value, "nullable")?;
    let rank = rank_under(value, "rank")?;
    let rule = text_under(alloc, value, "rule")?;
    let follow = starts_under(alloc, grammar, value, "follow")?;
    let first = starts_under(alloc, grammar, value, "first")?;
    Ok(RuleClaim {
        rule,
        nullable,
        rank,
        cost,
        first,
        follow,
    })
}
