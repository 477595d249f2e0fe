//! A corpus, tried by the grammar that a file spells: what `pgw test` does with open files.
//!
//! `tested_of` loads a grammar, to parse by it if it is accepted, or to probe it (`tested`). `trials` tries the cases of a corpus (`trying`). A case may start at
//! a rule of its own: then the grammar is loaded anew with that start (`starts`), once for all cases with that rule. What a passing case takes of the grammar is
//! noted at once (`covered`), and `coverage_page` tells what none takes (`untaken`, `words`).
#![tactic(auto)]

mod covered;
mod starts;
mod tested;
mod trying;
mod untaken;
mod words;

pub use tested::{Given, TestedGrammar, tested_of};
pub use trying::{Asked, trials};
pub use untaken::coverage_page;
