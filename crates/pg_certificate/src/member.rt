//! Numbers, marks and texts, as JSON values and under keys of objects.

ghost use Rattle.std.specs.Prelude.{◌≡◌, ◌↔◌, IsTrue};
ghost use Rattle.serde_json.specs.Data.{string};
ghost use Rattle.serde_json.specs.View.{view};
ghost use Rattle.pg_certificate.specs.Claims.{key_count, SaysUnder, SaysFlag, SaysNumber, SaysRank, SaysText};
ghost use Rattle.pg_certificate.specs.Readings.{Gives};

use crate::certificate_fault::CertificateFault;
use pg_text::{Characters, characters_of};
use serde_json::Value;
use std::alloc::Global;

/// How many keys an object has; 0 for any other value.
pub fn key_count(value: &Value) -> usize
    ensures { result ≡ key_count (view value.now) }
{
    match value.as_object() {
        Some(members) => members.len(),
        None => 0,
    }
}

/// The `true` or `false` under the key.
pub fn flag_under(value: &Value, key: &str) -> Result<bool, CertificateFault>
    ensures { Gives (SaysUnder key.now SaysFlag) (view value.now) result }
{
    match value.get(key) {
        Some(inner) => read_flag(inner),
        None => Err(CertificateFault::NotACertificate),
    }
}

/// The number under the key.
pub fn number_under(value: &Value, key: &str) -> Result<u64, CertificateFault>
    ensures { Gives (SaysUnder key.now SaysNumber) (view value.now) result }
{
    match value.get(key) {
        Some(inner) => read_number(inner),
        None => Err(CertificateFault::NotACertificate),
    }
}

/// The rank under the key.
pub fn rank_under(value: &Value, key: &str) -> Result<u32, CertificateFault>
    ensures { Gives (SaysUnder key.now SaysRank) (view value.now) result }
{
    match value.get(key) {
        Some(inner) => read_rank(inner),
        None => Err(CertificateFault::NotACertificate),
    }
}

/// The text under the key.
pub fn text_under(alloc: Global, value: &Value, key: &str) -> Result<Characters, CertificateFault>
    ensures { Gives (SaysUnder key.now SaysText) (view value.now) result }
{
    match value.get(key) {
        Some(inner) => read_text(alloc, inner),
        None => Err(CertificateFault::NotACertificate),
    }
}

fn read_flag(value: &Value) -> Result<bool, CertificateFault>
    ensures { Gives SaysFlag (view value.now) result }
{
    match value.as_bool() {
        Some(flag) => Ok(flag),
        None => Err(CertificateFault::NotACertificate),
    }
}

/// The value as a number.
pub fn read_number(value: &Value) -> Result<u64, CertificateFault>
    ensures { Gives SaysNumber (view value.now) result }
{
    match value.as_u64() {
        Some(number) => Ok(number),
        None => Err(CertificateFault::NotACertificate),
    }
}

fn read_rank(value: &Value) -> Result<u32, CertificateFault>
    ensures { Gives SaysRank (view value.now) result }
{
    let number = read_number(value)?;
    if number > u32::MAX as u64 {
        return Err(CertificateFault::NotACertificate);
    }
    Ok(number as u32)
}

/// The value as a text.
#[tactic(auto, using(crate::proofs::Parts::a_string))]
pub fn read_text(alloc: Global, value: &Value) -> Result<Characters, CertificateFault>
    ensures { Gives SaysText (view value.now) result }
{
    match value.as_str() {
        Some(text) => read_characters(alloc, text),
        None => Err(CertificateFault::NotACertificate),
    }
}

fn read_characters(alloc: Global, text: &str) -> Result<Characters, CertificateFault>
    ensures { Gives SaysText (string text.now) result }
{
    let characters = characters_of(alloc, text)?;
    Ok(Characters::new(characters))
}

/// Whether two texts are the same.
pub fn are_same(text: &[char], other: &[char]) -> bool
    ensures { IsTrue result ↔ (text.now ≡ other.now) }
{
    text == other
}
