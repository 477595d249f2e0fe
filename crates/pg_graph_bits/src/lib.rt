//! Sets of small numbers, a bit for each number.
//!
//! A [`BitSet`] holds numbers below a limit. Uniting two sets, and finding a number in both, works on words of 64
//! numbers at a time. Only [`BitSet::new`] takes memory.
#![tactic(auto)]

mod bit_set;
mod several;
#[cfg(test)]
mod tests;
mod words;

pub use bit_set::BitSet;
pub use several::unite_within;
