//! Reading the program's files, and reporting its faults with their exit status.
//!
//! Files are opened and read whole (`files`), or kept while they are read (`kept`), through a handle that prints or is quiet (`handle`). A fault is reported
//! in the words of `specs/Texts.antt` (`reporting`): on standard error (`printing`), with its meaning (`explained`), or as a line of JSON (`json`). It has
//! the status of `specs/Status.antt`. What commands do with grammars and texts is in the crates above. They pass each fault to a call here that reports it,
//! so that no crate above has to drop one.
#![tactic(auto)]

mod explained;
mod files;
mod handle;
mod json;
mod kept;
mod printing;
mod reporting;

pub use explained::{print_explained_fault, print_text_fault, tell_byte, tell_nearest};
pub use files::{
    STANDARD_INPUT, Source, found, grammar_alone, grammar_with_certificate, inputs,
    inputs_with_trail, null_file, opened, text_alone,
};
pub use handle::Handle;
pub use json::print_json_fault;
pub use kept::Kept;
pub use printing::{
    ErrorWriter, UNUSABLE, cannot_write, loaded, print_page, print_report, print_verdict, refuse,
    say,
};
pub use reporting::{Names, said_of, status, write_report};
