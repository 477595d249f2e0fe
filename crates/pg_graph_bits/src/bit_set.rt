//! A set of numbers below a limit.
//!
//! Contracts see it as a list of marks, as long as the limit, with a mark for each number in the set. There are words for all numbers below the limit, and no
//! bit is set at the limit or past it. Whatever writes the words keeps both.
ghost use Rattle.std.specs.Prelude.{◌≡◌, ◌<◌, ◌≤◌, ◌↔◌, ◌||◌, ℕ, Bool, true, false, length, replicate, slice_set, IfOk, IsTrue, MatchOption};
ghost use Rattle.std.specs.List.{count_by};
ghost use Rattle.pg_graph_bits.specs.Numbers.{contains, in_both, Adds, IsNext};

use crate::words::{count_bits, first_from, first_in_both, has_bit, unite_words};
use std::alloc::{AllocError, Global};
use std::marker::Model;

/// A set of numbers below a limit.
#[derive(Debug, Drop)]
pub struct BitSet {
    words: Vec<u64>,
    limit: usize,
}

impl Model for BitSet {
    ghost use Rattle.std.specs.Prelude.{Bool, List};
    ghost use Rattle.pg_graph_bits.specs.Words.{marks_of, HoldsBelow};

    ghost Value = { List Bool };

    ghost view = { λ set. marks_of set.words.items set.limit };

    ghost invariant = { λ set. HoldsBelow set.words.items set.limit };
}

impl BitSet {
    /// The empty set for numbers below the limit.
    pub fn new(alloc: Global, limit: usize) -> Result<BitSet, AllocError>
        ensures { IfOk result (λ set. set ≡ replicate limit false) }
    {
        let words = vec![in alloc; 0u64; limit / 64 + 1]?;
        Ok(BitSet { words, limit })
    }

    /// Whether the number is in the set. A number at the limit or past it isn't.
    pub fn contains(&self, number: usize) -> bool
        ensures { result ≡ contains self.now number }
    {
        has_bit(&self.words, number)
    }

    /// How many numbers are in the set.
    pub fn count(&self) -> usize
        ensures { result ≡ count_by (λ mark. mark) self.now }
    {
        count_bits(&self.words)
    }

    /// Adds a number.
    pub fn insert(&mut self, number: usize)
        requires { number < length self.old }
        ensures { self.new ≡ slice_set self.old number true }
    {
        self.words[number / 64] |= 1u64 << (number % 64);
    }

    /// Adds the numbers of another set with the same limit. Returns whether one of them was new.
    pub fn unite(&mut self, other: &BitSet) -> bool
        requires { length self.old ≡ length other.now }
        ensures limit { length self.new ≡ length self.old }
        ensures united { (n : ℕ) → contains self.new n ≡ (contains self.old n || contains other.now n) }
        ensures grown { IsTrue result ↔ Adds self.old other.now }
    {
        unite_words(&mut self.words, &other.words)
    }

    /// The least number in both sets.
    pub fn first_common(&self, other: &BitSet) -> Option<usize>
        ensures { MatchOption result ((n : ℕ) → in_both self.now other.now n ≡ false) (λ k. IsNext (in_both self.now other.now) 0 k) }
    {
        first_in_both(&self.words, &other.words)
    }

    /// The least number in the set from this one on.
    pub fn next(&self, from: usize) -> Option<usize>
        ensures { MatchOption result ((n : ℕ) → from ≤ n → contains self.now n ≡ false) (λ k. IsNext (contains self.now) from k) }
    {
        first_from(&self.words, from)
    }
}
