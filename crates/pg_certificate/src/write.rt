//! A certificate's JSON text.
//!
//! It is compact, and is appended piece by piece to one buffer, with keys in order. `serde_json` writes names and the texts of keys, so they
//! have its escapes.

ghost use Rattle.std.specs.Prelude.{◌≡◌, ◌<◌, ◌^◌, ◌++◌, true, IfOk, OnOk};
ghost use Rattle.std.specs.List.{AllByRecursion};
ghost use Rattle.std.specs.Str.{encode_utf8_all, IsUtf8};
ghost use Rattle.serde_json.specs.Data.{boolean};
ghost use Rattle.serde_json.specs.Written.{compact_text, members_text};
ghost use Rattle.pg_certificate.specs.Certificates.{IsCertificateText};
ghost use Rattle.pg_certificate.specs.Fitting.{FitsGrammar, IsStorableClaim};
ghost use Rattle.pg_certificate.specs.Values.{claim_value, claims_value, other_members, certificate_json};

use crate::certificate::{Certificate, RuleClaim};
use crate::write_start::{push_number, push_starts, push_text};
use pg_grammar_value::Grammar;
use std::alloc::{AllocError, Global};

/// The JSON text of a certificate of the grammar, without a line end. It takes time linear in the certificate.
#[tactic(auto, using(crate::proofs::Again::certificate_is_text), unfolding(json::specs::Print::escape_byte))]
pub fn write_certificate(
    alloc: Global,
    grammar: &Grammar,
    certificate: &Certificate,
) -> Result<Vec<u8>, AllocError>
    ensures text { IfOk result (λ text. text.items ≡ certificate_json grammar.now certificate.now) }
    ensures read_again { FitsGrammar grammar.now certificate.now → IfOk result (λ text. IsCertificateText grammar.now text.items certificate.now) }
{
    let mut text = Vec::new(alloc);
    text.extend_from_slice(b"{\"rules\":")?;
    push_claims(alloc, grammar, certificate.claims(), &mut text)?;
    text.push(b'}')?;
    Ok(text)
}

/// Pushes the claims as an array.
fn push_claims(
    alloc: Global,
    grammar: &Grammar,
    claims: &[RuleClaim],
    text: &mut Vec<u8>,
) -> Result<(), AllocError>
    ensures text { OnOk result (text.new.items ≡ text.old.items ++ compact_text (claims_value grammar.now claims.now)) }
    ensures storable { OnOk result (AllByRecursion (IsStorableClaim grammar.now) claims.now) }
{
    text.push(b'[')?;
    if let [first, rest @ ..] = claims {
        push_claim(alloc, grammar, first, text)?;
        for claim in rest {
            text.push(b',')?;
            push_claim(alloc, grammar, claim, text)?;
        }
    }
    text.push(b']')?;
    Ok(())
}

/// Pushes the claims about a rule as an object.
#[tactic(auto, unfolding(json::specs::Print::escape_byte))]
fn push_claim(
    alloc: Global,
    grammar: &Grammar,
    claim: &RuleClaim,
    text: &mut Vec<u8>,
) -> Result<(), AllocError>
    ensures text { OnOk result (text.new.items ≡ text.old.items ++ compact_text (claim_value grammar.now claim.now)) }
    ensures storable { OnOk result (IsStorableClaim grammar.now claim.now) }
{
    text.extend_from_slice(b"{\"first\":")?;
    push_starts(alloc, grammar, claim.first.as_slice(), text)?;
    text.extend_from_slice(b",\"follow\":")?;
    push_starts(alloc, grammar, claim.follow.as_slice(), text)?;
    push_others(alloc, claim, text)
}

/// Pushes the members after the sets, and closes the object.
#[tactic(auto, unfolding(json::specs::Print::escape_byte))]
fn push_others(alloc: Global, claim: &RuleClaim, text: &mut Vec<u8>) -> Result<(), AllocError>
    ensures text { OnOk result (text.new.items ≡ text.old.items ++ members_text true (other_members claim.now)) }
    ensures cost { OnOk result (claim.now.cost < 2 ^ 64) }
    ensures rank { OnOk result (claim.now.rank < 2 ^ 32) }
    ensures rule { OnOk result (IsUtf8 (encode_utf8_all claim.now.rule)) }
{
    text.extend_from_slice(b",\"h\":")?;
    push_number(claim.cost, text)?;
    text.extend_from_slice(b",\"nullable\":")?;
    push_flag(claim.nullable, text)?;
    text.extend_from_slice(b",\"rank\":")?;
    push_number(claim.rank as u64, text)?;
    text.extend_from_slice(b",\"rule\":")?;
    push_text(alloc, &claim.rule, text)?;
    text.push(b'}')?;
    Ok(())
}

/// Pushes `true` or `false`.
fn push_flag(flag: bool, text: &mut Vec<u8>) -> Result<(), AllocError>
    ensures { OnOk result (text.new.items ≡ text.old.items ++ compact_text (boolean flag)) }
{
    if flag {
        text.extend_from_slice(b"true")
    } else {
        text.extend_from_slice(b"false")
    }
}
