//! Common grammar shapes, and the recipes for them.
//!
//! What is wrong with a grammar is often a common idiom: an `else` of the nearest `if`, a comment up to its end, a keyword beside names. `recipe_of`
//! recognizes it by the forms that two starts come from. A `Recipe` knows its heading on the page on findings. Nothing is claimed here but that the code is
//! safe and ends; `tests/recipes` checks which shapes are recognized.
#![tactic(auto)]

mod forms;
mod options;
mod recipe;
mod rounds;
mod shapes;

pub use recipe::Recipe;
pub use shapes::recipe_of;
