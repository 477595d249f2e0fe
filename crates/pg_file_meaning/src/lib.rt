//! The meaning of the values, class expressions and names of a grammar file.
//!
//! Short forms are replaced by base forms (`body`, `replacing`), and names by the class items, predicates and builders that they name (`lookup`).
//! `specs/Meaning.antt` defines this on trees, and `specs/Bodies.antt` on values in preorder, as they are read. That both agree is proved apart from the
//! code.
#![tactic(auto)]

mod body;
mod error;
mod lookup;
mod replacing;

pub use body::PlacedBase;
pub use error::MakingError;
pub use lookup::{class_meant, is_builder_name, is_predicate_name};
pub use replacing::body_meant;
