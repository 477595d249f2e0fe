//! Runs of the machine (`pg_machine_turns`) from a grammar's start rule.
//!
//! [`probe`] runs any grammar, with a limit on the turns. Its answer is the one of the relation in `pg_language`, with its error
//! and its trail; [`probe_watched`] shows each turn to a watcher. [`run`] runs a checked grammar, which answers every text, until the answer is there, and
//! then requires the end of the text. [`refusal`] does the same for texts that are likely refused, and makes no trees.
#![tactic(auto)]

mod answer;
mod checked_run;
mod laws;
mod probing;
mod treeless;
mod watched;

pub use answer::{Answer, Outcome, Success};
pub use checked_run::{refusal, run};
pub use laws::accepted_probes_answer;
pub use probing::probe;
pub use watched::{Run, Watcher, probe_watched};
