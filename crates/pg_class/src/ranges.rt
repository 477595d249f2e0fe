//! Joining ranges into the list of a class.
//!
//! Ranges are joined in the order in which they begin. So each of them either overlaps or touches the last range made so far and extends it, or comes after
//! it with a character between. The ranges made so far are always a class. Only `class.rt` calls this, once it knows that no range descends.
ghost use Rattle.std.specs.Prelude.{◌≡◌, ◌<◌, ◌≤◌, ◌||◌, ℕ, All, IfOk, OnOk};
ghost use Rattle.std.specs.Char.{IsScalar, scalar_index};
ghost use Rattle.std.specs.List.Sorted.{IsNonDecreasingBy};
ghost use Rattle.pg_class.specs.Ranges.{IsClass, apart, has, in_range, with_range};

use std::alloc::{AllocError, Global};

/// The class of the characters in any of these ranges, which may come in any order.
pub fn joined(alloc: Global, ranges: Vec<(char, char)>) -> Result<Vec<(char, char)>, AllocError>
    requires { All (λ range. range.0 ≤ range.1) ranges.items }
    ensures class { IfOk result (λ v. IsClass v.items) }
    ensures members { IfOk result (λ v. (c : ℕ) → IsScalar c → has v.items c ≡ has ranges.items c) }
{
    let mut ranges = ranges;
    ranges.sort_unstable_by_key(|range| range.0);
    joined_in_order(alloc, ranges.as_slice())
}

/// The class of the characters in any of these ranges, which are in the order in which they begin.
fn joined_in_order(alloc: Global, ranges: &[(char, char)]) -> Result<Vec<(char, char)>, AllocError>
    requires ascend { All (λ range. range.0 ≤ range.1) ranges.now }
    requires rise { IsNonDecreasingBy (λ range. range.0) ranges.now }
    ensures class { IfOk result (λ v. IsClass v.items) }
    ensures members { IfOk result (λ v. (c : ℕ) → IsScalar c → has v.items c ≡ has ranges.now c) }
{
    let mut class = Vec::new(alloc);
    for range in ranges {
        let (first, last) = *range;
        join(&mut class, first, last)?;
    }
    Ok(class)
}

/// The class of the characters in either of two classes.
pub fn united(
    alloc: Global,
    class: &[(char, char)],
    other: &[(char, char)],
) -> Result<Vec<(char, char)>, AllocError>
    requires class { IsClass class.now }
    requires other { IsClass other.now }
    ensures class { IfOk result (λ v. IsClass v.items) }
    ensures members { IfOk result (λ v.
        (c : ℕ) → IsScalar c → has v.items c ≡ (has class.now c || has other.now c)) }
{
    let mut ranges = Vec::from_slice(alloc, class)?;
    ranges.extend_from_slice(other)?;
    joined(alloc, ranges)
}

/// Joins a range to a class. No range of the class begins after it.
fn join(class: &mut Vec<(char, char)>, first: char, last: char) -> Result<(), AllocError>
    requires class { IsClass class.old.items }
    requires begins { All (λ range. range.0 ≤ first) class.old.items }
    requires ascends { first ≤ last }
    ensures joined { OnOk result (class.new.items ≡ with_range (first, last) class.old.items) }
    ensures class { OnOk result (IsClass class.new.items) }
    ensures members { OnOk result ((c : ℕ) → IsScalar c → has class.new.items c ≡ (in_range c (first, last) || has class.old.items c)) }
{
    match class.last() {
        Some(highest) if !is_apart(*highest, (first, last)) => {
            let joined = (highest.0, highest.1.max(last));
            let end = class.len() - 1;
            class[end] = joined;
        }
        _ => class.push((first, last))?,
    }
    Ok(())
}

/// Whether at least one character lies between two ranges, the first below the second.
fn is_apart(low: (char, char), high: (char, char)) -> bool
    ensures { result ≡ apart low high }
{
    index_of(low.1) + 1 < index_of(high.0)
}

fn index_of(c: char) -> u32
    ensures value { result ≡ scalar_index c }
    ensures bound { result < 0x11_0000 }
{
    let code = u32::from(c);
    if code < 0xd800 { code } else { code - 0x800 }
}
