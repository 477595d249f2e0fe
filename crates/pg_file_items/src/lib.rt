//! The items of a grammar file, and their syntax.
//!
//! An item is kept in preorder, with names that aren't looked up (`item`, `written`). `specs/Tree.antt` has it as a
//! tree, `Syntax` the tokens of a tree as it is written, `Proper` and `Depth` what a tree may contain, and `Heads` a
//! tree in preorder. Reading, making and printing files all use these. `words` tells what a word begins, and `size` how
//! many base forms a value stands for.
#![tactic(auto)]

mod item;
mod size;
mod span;
mod words;
mod written;

pub use item::{Item, PlacedClass, PlacedForm};
pub use size::body_size;
pub use span::Span;
pub use words::{
    ClassForm, FormWord, OneForm, SomeForm, TwoForm, form_word, is_reserved, role_named,
};
pub use written::{WrittenClass, WrittenForm, WrittenPart};
