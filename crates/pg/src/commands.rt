//! The commands, and what each does with its files.
//!
//! Each command opens the text, reads the grammar, and then passes both to the crate that goes from bytes to bytes. Functions that hold files are apart from
//! functions that hold a writer, which keeps their proofs short. The latter have the bytes at hand, so their contracts say what the exit status means for
//! them.

ghost use Rattle.pg_pred.specs.Offer.{offer_of};
ghost use Rattle.pg_pred_program.specs.ProgramOffer.{IsProgramOffer};

mod check;
mod cost;
mod explain;
mod lines;
mod listing;
mod lsp;
mod parse;
mod places;
mod probe;
mod replay;
mod show;
mod test;

use crate::commands::check::{Checking, check_files};
use crate::commands::explain::explain_file;
use crate::commands::lsp::serve_editor;
use crate::commands::parse::parse_files;
use crate::commands::probe::{Probing, probe_files};
use crate::commands::replay::replay_files;
use crate::commands::show::{print_file, show_file, translate_file, verify_files};
use crate::commands::test::test_files;
use pg_command_line::Request;
use pg_language::Reading;
use pg_pred::Registry;
use pg_pred_program::UsesRegistry;
use pg_report::Handle;
use std::alloc::AllocError;
use std::io::Input;
use std::rt::Files;

/// The exit status of a grammar that isn't accepted, of a probe whose answer isn't ok, and of a trail that doesn't lead to a forest.
pub(crate) const NO: u8 = 1;

/// A request, and the handle that reads files and prints lines.
#[derive(Drop)]
pub struct Asked<'h, 'r, 'm, 'a, R> {
    pub handle: &'h Handle<'r, R>,
    pub request: Request<'m, 'a>,
}

impl<R: AllocGlobal + Files + Input + Print + Eprint> UsesRegistry for Asked<'_, '_, '_, '_, R> {
    type Answer = u8;

    // No contract says what files contain and what is printed, so none says which status follows.
    ghost Gives = { λ asked offer status. Unit };

    fn run(&self, registry: &Registry) -> Result<u8, AllocError> {
        answer(self.handle, self.request, registry)
    }
}

/// Does what is asked, with the predicates and builders of the registry.
fn answer<R: AllocGlobal + Files + Input + Print + Eprint>(
    rt: &Handle<R>,
    request: Request,
    registry: &Registry,
) -> Result<u8, AllocError>
    requires { IsProgramOffer (offer_of registry.now) }
{
    match request {
        Request::Check {
            grammars,
            accepted,
            findings,
            notes,
        } => {
            let checking = Checking {
                accepted,
                findings,
                notes,
            };
            check_files(rt, grammars, registry, checking)
        }
        Request::Explain { grammar, asked } => explain_file(rt, grammar, registry, asked),
        Request::Verify {
            grammar,
            certificate,
        } => verify_files(rt, grammar, certificate, registry),
        Request::Parse {
            grammar,
            texts,
            parsing,
        } => parse_files(rt, grammar, texts, registry, parsing),
        Request::Probe {
            grammar,
            text,
            max_steps,
            report,
            trace,
            only,
        } => {
            let reading = if report {
                Reading::Report
            } else {
                Reading::Library
            };
            let probing = Probing {
                max_steps,
                reading,
                trace,
                only,
            };
            probe_files(rt, grammar, text, registry, probing)
        }
        Request::Replay {
            grammar,
            text,
            trail,
        } => replay_files(rt, grammar, text, trail, registry),
        Request::Test {
            grammar,
            corpora,
            testing,
        } => test_files(rt, grammar, corpora, registry, testing),
        Request::Print { grammar } => print_file(rt, grammar, registry),
        Request::Sets { grammar } => show_file(rt, grammar, registry),
        Request::Haskell { grammar, module } => translate_file(rt, grammar, registry, module),
        Request::Lsp => serve_editor(rt.rt, registry),
    }
}
