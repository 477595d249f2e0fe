//! The characters of class expressions, computed once for each expression of a grammar.
//!
//! `classes` computes the class of an expression from the class items that it may name. A [`CharacterSet`] is a class with a table for ASCII characters:
//! those are looked up, and other characters are found by binary search. [`ItemSets`] are the sets of a grammar's class items, and an expression that is only
//! the name of an item shares its set. [`ContentSets`] are the sets of all other expressions, found by where the expression stands ([`ClassSite`]). Forms
//! near one another with equal expressions share a set (`alike`).
#![tactic(auto)]

mod alike;
mod ascii_table;
mod character_set;
mod classes;
mod content_sets;
mod item_sets;
mod site;

pub use character_set::CharacterSet;
pub use classes::{class_between, class_in, class_of, classes_of_items};
pub use content_sets::ContentSets;
pub use item_sets::ItemSets;
pub use site::ClassSite;
