//! Making the grammar of a file's items.
//!
//! The definitions of the items are noted first (`defined`). Then the items are read once in file order: the names of each are looked up (`names`, `scope`),
//! so that the first fault is known with its place (`name_fault`), and the item is given to a maker (`handing`, `making`), which alone refuses. The initial
//! operators are checked (`initials`). `specs/Spells.antt` defines the grammar that a file spells: from its bytes to its tokens, to its items, to the
//! grammar. `specs/Making.antt` has the last step for items in preorder, as they are read.
#![tactic(auto)]

mod defined;
mod handing;
mod initials;
mod making;
mod name_fault;
mod names;
mod scope;

pub use making::{PlacedGrammar, grammar_of};
pub use name_fault::{GrammarError, NameFault, NameFaultKind};
