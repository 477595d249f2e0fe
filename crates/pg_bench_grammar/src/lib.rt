//! What can be done with a grammar file alone, from its bytes and without a text.
//!
//! `check_bytes` writes whether a grammar is accepted, or all its findings. `verify_bytes` judges a certificate of it, `print_bytes` writes it in canonical
//! form, and `sets_bytes` writes its sets. Their contracts speak of the bytes of the file and of those that were written. The crates above, which explain
//! findings and run texts, get their grammars from here and end with the same faults (`BenchFault`). A file that is both judged and explained is loaded once
//! (`loaded`), and `check_loaded` checks a loaded file.
#![tactic(auto)]

mod bench_fault;
mod check;
mod grammar_file;
mod laws;
mod loaded;
mod output;
mod planned;
mod print;
mod sets;
mod verify;

pub use bench_fault::BenchFault;
pub use check::{certificate_line, check_bytes, check_loaded};
pub use grammar_file::{AcceptedGrammar, accepted_of, grammar_of, placed_of};
pub use laws::{printed_certificates_are_verified, verified_files_are_accepted};
pub use loaded::{Judgement, LoadedFile, load};
pub use output::write_page;
pub use planned::PlannedGrammar;
pub use print::print_bytes;
pub use sets::sets_bytes;
pub use verify::verify_bytes;
