//! Several faults of a grammar file.
//!
//! Reading returns the first fault of a file, and this crate goes on (`faults`). The item with the fault (`item`) is replaced by blanks, and the file is read
//! again (`remains`). So places stay the same, and every reported fault is one that reading returned. The names that the item would have defined are defined
//! after the end (`names`), so that they aren't missed; a fault that comes only from the item isn't reported (`causes`). Nothing is proved about the faults
//! after the first: the code has to be safe and to end.
#![tactic(auto)]

mod causes;
mod faults;
mod item;
mod names;
mod remains;

pub use faults::{ToldFault, faults_of};
