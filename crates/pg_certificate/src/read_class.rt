//! JSON values to classes.
//!
//! Ranges are refused unless they are exactly a class's, though other ranges may have the same characters: so there is one way to
//! claim a class.

ghost use Rattle.std.specs.Prelude.{◌≡◌, ◌↔◌, IsTrue, map, MatchOption};
ghost use Rattle.serde_json.specs.Data.{Data};
ghost use Rattle.serde_json.specs.View.{view};
ghost use Rattle.pg_class.specs.Ranges.{SameCharacters};
ghost use Rattle.pg_certificate.specs.Claims.{Each, SaysEach, SaysRange, SaysCharacter, SaysClass, IsClassAsIs, two_values};
ghost use Rattle.pg_certificate.specs.Readings.{Gives, items_of_ok};

use crate::certificate_fault::CertificateFault;
use crate::member::read_number;
use pg_class::{Class, ClassFault};
use serde_json::Value;
use std::alloc::Global;

/// The value as a class.
#[tactic(auto, using(crate::proofs::Classes::class_given, crate::proofs::Classes::ranges_refused))]
pub fn read_class(alloc: Global, value: &Value) -> Result<Class, CertificateFault>
    ensures { Gives SaysClass (view value.now) result }
{
    let ranges = read_ranges(alloc, value)?;
    class_as_is(alloc, ranges.as_slice())
}

/// The class with exactly these ranges, if there is one.
#[tactic(auto, using(crate::proofs::Classes::none_descends))]
fn class_as_is(alloc: Global, ranges: &[(char, char)]) -> Result<Class, CertificateFault>
    ensures { Gives IsClassAsIs ranges.now result }
{
    match Class::from_ranges(alloc, ranges) {
        Ok(class) => if_same(class, ranges),
        Err(ClassFault::Descends) => Err(CertificateFault::NotACertificate),
        Err(ClassFault::Memory) => Err(CertificateFault::Memory),
    }
}

/// Whether two lists of ranges are the same.
fn are_same(ranges: &[(char, char)], others: &[(char, char)]) -> bool
    ensures { IsTrue result ↔ (ranges.now ≡ others.now) }
{
    ranges == others
}

/// The class, if it has exactly the ranges that it was made from.
#[tactic(auto, using(crate::proofs::Classes::not_as_is))]
fn if_same(class: Class, ranges: &[(char, char)]) -> Result<Class, CertificateFault>
    requires { SameCharacters class ranges.now }
    ensures { Gives IsClassAsIs ranges.now result }
{
    if are_same(class.ranges(), ranges) {
        Ok(class)
    } else {
        Err(CertificateFault::NotACertificate)
    }
}

fn read_ranges(alloc: Global, value: &Value) -> Result<Vec<(char, char)>, CertificateFault>
    ensures { Gives (SaysEach SaysRange) (view value.now) (items_of_ok result) }
{
    match value.as_array() {
        Some(list) => read_each_range(alloc, list.as_slice()),
        None => Err(CertificateFault::NotACertificate),
    }
}

fn read_each_range(alloc: Global, list: &[Value]) -> Result<Vec<(char, char)>, CertificateFault>
    ensures { Gives (Each SaysRange) (map view list.now) (items_of_ok result) }
{
    let mut ranges = Vec::new(alloc);
    for value in list {
        ranges.push(read_range(value)?)?;
    }
    Ok(ranges)
}

fn read_range(value: &Value) -> Result<(char, char), CertificateFault>
    ensures { Gives SaysRange (view value.now) result }
{
    match both_values(value) {
        Some((first, last)) => Ok((read_character(first)?, read_character(last)?)),
        None => Err(CertificateFault::NotACertificate),
    }
}

/// The two values of an array of two.
fn both_values(value: &Value) -> Option<(&Value, &Value)>
    ensures { MatchOption result ((first last : Data) → ¬ (two_values first last ≡ view value.now))
        (λ both. two_values (view both.0.now) (view both.1.now) ≡ view value.now) }
{
    match value.as_array()?.as_slice() {
        [first, last] => Some((first, last)),
        _ => None,
    }
}

fn read_character(value: &Value) -> Result<char, CertificateFault>
    ensures { Gives SaysCharacter (view value.now) result }
{
    let number = read_number(value)?;
    if number > u32::MAX as u64 {
        return Err(CertificateFault::NotACertificate);
    }
    match char::from_u32(number as u32) {
        Some(character) => Ok(character),
        None => Err(CertificateFault::NotACertificate),
    }
}
