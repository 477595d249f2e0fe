//! Sets of characters, kept as ranges.
//!
//! A `Class` is an ascending list of ranges with at least one character between neighbours, so equal sets have equal
//! lists (`ranges_are_unique`). A character is a Unicode scalar value. The surrogates, 0xD800 to 0xDFFF, aren't
//! characters, so two ranges with only surrogates between them are joined.
#![tactic(auto)]

mod class;
mod compare;
mod complement;
mod ranges;
#[cfg(test)]
mod tests;

pub use class::{Class, ClassFault, ranges_are_unique};
