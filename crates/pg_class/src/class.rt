//! The type of a set of characters, and its public calls.
//!
//! Callers see a class as the list of its ranges. `ranges.rt` and `complement.rt` establish the invariant `IsClass`,
//! and a class never changes once it is made. The printed form of a grammar and the comparison of classes rely on it.
ghost use Rattle.std.specs.Prelude.{◌≡◌, ◌<◌, ◌≤◌, ◌↔◌, ◌||◌, ℕ, not, List, All, Any, IfOk, IsErrOf, IsTrue};
ghost use Rattle.std.specs.List.{list_any};
ghost use Rattle.std.specs.Char.{IsScalar};
ghost use Rattle.pg_class.specs.Ranges.{Range, AreDisjoint, IsClass, IsWithin, SameCharacters, begins_by, has};

use crate::compare::{are_disjoint, is_within};
use crate::complement::complemented;
use crate::ranges::{joined, united};
use std::alloc::{AllocError, Global};
use std::collections::VecDeque;
use std::marker::Model;
use std::rc::RcSlice;
use thiserror::Error;

/// A set of characters. It may share its ranges with other classes.
#[derive(Debug, Drop)]
pub struct Class {
    ranges: RcSlice<(char, char)>,
}

impl Model for Class {
    ghost use Rattle.std.specs.Prelude.{List};
    ghost use Rattle.std.specs.Rc.{rc_slice_items};
    ghost use Rattle.pg_class.specs.Ranges.{Range, IsClass};

    ghost Value = { List Range };

    ghost view = { λ c. rc_slice_items c.ranges };

    ghost invariant = { λ c. IsClass (rc_slice_items c.ranges) };
}

/// Why ranges don't make a class.
#[derive(Debug, Drop, Error)]
pub enum ClassFault {
    /// The first character of a range is above its last.
    #[error("K1 range descends")]
    Descends,
    /// No range descends, but memory ran out.
    #[error("out of memory")]
    Memory,
}

impl Class {
    /// The class of the characters in any of these ranges. They may overlap, touch and come in any order; no ranges
    /// make the empty class. It checks that none descends before it asks for memory.
    pub fn from_ranges(alloc: Global, ranges: &[(char, char)]) -> Result<Class, ClassFault>
        ensures members { IfOk result (λ class.
            (c : ℕ) → IsScalar c → has class c ≡ has ranges.now c) }
        ensures descends { IsErrOf result ClassFault.Descends ↔
            Any (λ range. range.1 < range.0) ranges.now }
    {
        if ranges.iter().any(|range| range.1 < range.0) {
            return Err(ClassFault::Descends);
        }
        class_of_ranges(alloc, ranges).map_err(|_| ClassFault::Memory)
    }

    /// The class of the characters in this class or the other. The only error is running out of memory; two equal classes take none.
    pub fn union(&self, alloc: Global, other: &Class) -> Result<Class, AllocError>
        ensures members { IfOk result (λ class.
            (c : ℕ) → IsScalar c → has class c ≡ (has self.now c || has other.now c)) }
    {
        if self.equals(other) {
            return self.share();
        }
        let ranges = united(alloc, self.ranges(), other.ranges())?;
        class_with(ranges)
    }

    /// The class of the characters in any of these classes.
    ///
    /// It joins two at a time, so the time is near linear in the number of their ranges, and equal classes take no memory.
    pub fn union_of(alloc: Global, classes: VecDeque<Class>) -> Result<Class, AllocError>
        ensures members { IfOk result (λ class.
            (c : ℕ) → IsScalar c → has class c ≡ list_any (λ one. has one c) classes.items) }
    {
        let mut waiting = classes;
        while let Some(class) = waiting.pop_front() {
            match waiting.pop_front() {
                Some(other) => waiting.push_back(class.union(alloc, &other)?)?,
                None => return Ok(class),
            }
        }
        class_with(Vec::new(alloc))
    }

    /// The class of the characters that aren't in this class.
    pub fn complement(&self, alloc: Global) -> Result<Class, AllocError>
        ensures members { IfOk result (λ class.
            (c : ℕ) → IsScalar c → has class c ≡ not (has self.now c)) }
    {
        let ranges = complemented(alloc, self.ranges())?;
        class_with(ranges)
    }

    /// An equal class, which shares the ranges of this one and takes no memory. The only error, reported as out of memory, is that they are shared as often
    /// as can be counted.
    pub fn share(&self) -> Result<Class, AllocError>
        ensures { IfOk result (λ class. class ≡ self.now) }
    {
        Ok(Class {
            ranges: self.ranges.clone()?,
        })
    }

    /// Whether the other class is equal, that is, has the same characters (`ranges_are_unique`).
    pub fn equals(&self, other: &Class) -> bool
        ensures { IsTrue result ↔ (self.now ≡ other.now) }
    {
        self.ranges() == other.ranges()
    }

    /// Whether the character is in the class. It finds the one range that may have it by binary search.
    pub fn has(&self, c: char) -> bool
        ensures { result ≡ has self.now c }
    {
        let ranges = self.ranges();
        let place = place_of(ranges, c);
        place < ranges.len() && ranges[place].0 <= c
    }

    /// Whether no character is in both classes. It goes through the ranges of each once, and takes no memory.
    pub fn disjoint(&self, other: &Class) -> bool
        ensures { IsTrue result ↔ AreDisjoint self.now other.now }
    {
        are_disjoint(self.ranges(), other.ranges())
    }

    /// Whether each character of this class is in the other. It goes through the ranges of each once, and takes no
    /// memory.
    pub fn within(&self, other: &Class) -> bool
        ensures { IsTrue result ↔ IsWithin self.now other.now }
    {
        is_within(self.ranges(), other.ranges())
    }

    /// The ranges in ascending order, each with its first and its last character.
    pub fn ranges(&self) -> &[(char, char)]
        ensures same { result.now ≡ self.now }
        ensures class { IsClass self.now }
    {
        self.ranges.as_slice()
    }
}

/// The class of the characters in any of these ranges, none of which descends.
fn class_of_ranges(alloc: Global, ranges: &[(char, char)]) -> Result<Class, AllocError>
    requires { All (λ range. range.0 ≤ range.1) ranges.now }
    ensures { IfOk result (λ class. (c : ℕ) → IsScalar c → has class c ≡ has ranges.now c) }
{
    let ranges = Vec::from_slice(alloc, ranges)?;
    class_with(joined(alloc, ranges)?)
}

/// The class of these ranges.
fn class_with(ranges: Vec<(char, char)>) -> Result<Class, AllocError>
    requires { IsClass ranges.items }
    ensures { IfOk result (λ class. class ≡ ranges.items) }
{
    Ok(Class {
        ranges: RcSlice::from_vec(ranges)?,
    })
}

/// The index of the first range that doesn't end below the character. As the ranges ascend, no other can have it.
fn place_of(ranges: &[(char, char)], c: char) -> usize
    requires { IsClass ranges.now }
    ensures { has ranges.now c ≡ begins_by ranges.now result c }
{
    ranges.partition_point(|range| range.1 < c)
}

/// The law that two classes with the same characters have the same list of ranges, so classes may be compared by their
/// lists. It does nothing when it runs.
pub fn ranges_are_unique()
    ensures { (one other : List Range) → IsClass one → IsClass other →
        SameCharacters one other → one ≡ other }
{}
