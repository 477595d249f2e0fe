//! What the program does with a grammar file and a text once they are open, from bytes to bytes.
//!
//! `parse_bytes` parses the text that a reader gives, writes its forest and answers how many steps that took. `parse_checked` does so with a grammar that is
//! loaded already, `parse_line` writes the forest on a line after the text's name, `parsed_text` doesn't write it, and `parse_cost` answers the steps alone.
//! `probe_bytes` runs the start rule on the text and writes what Parsec would answer, and `probe_text` does so while a watcher sees the run. `replay_bytes`
//! replays a trail over the text. The calls that read no text are in the crate below: `check_bytes` writes whether a grammar is accepted, or all its
//! findings, `verify_bytes` judges a certificate, `print_bytes` writes a grammar in canonical form, and `sets_bytes` writes its sets. All contracts speak of
//! the bytes that were read and written, and of what these spell, derive and answer. The predicates and builders that a file may name come in a registry.
#![tactic(auto)]

mod done;
#[cfg(test)]
mod failing_tests;
mod input;
mod json;
mod laws;
mod line;
#[cfg(test)]
mod number_tests;
mod outcome_page;
mod parse;
mod pieces;
mod probe;
mod quick;
mod refused;
mod replay;
mod showing;
#[cfg(test)]
mod tests;
mod writing;

pub use done::Done;
pub use input::text_of;
pub use laws::parsed_trails_replay;
pub use line::{error_line, parse_line};
pub use parse::{Parse, ParsedText, parse_bytes, parse_checked, parse_cost, parsed_text};
pub use pg_bench_grammar::{BenchFault, check_bytes, print_bytes, sets_bytes, verify_bytes};
pub use probe::{Probing, probe_bytes, probe_grammar, probe_text};
pub use replay::replay_bytes;
