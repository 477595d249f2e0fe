//! The explanation of what is wrong with a grammar, for people.

ghost use Rattle.std.specs.Prelude.{◌≡◌, IfOk};
ghost use Rattle.pg_pred.specs.Offer.{offer_of};
ghost use Rattle.pg_grammar_value.specs.Fits.{Fits};
ghost use Rattle.pg_table.specs.Tables.{initial, whole};
ghost use Rattle.pg_bench_grammar.specs.Loading.{judged_grammar};
ghost use Rattle.pg.specs.Status.{IsCheckStatus, IsJudgedStatus};

use crate::commands::NO;
use pg_bench_explain::{Explained, explain_loaded};
use pg_bench_grammar::{LoadedFile, load};
use pg_pred::Registry;
use pg_report::{
    Handle, Names, UNUSABLE, grammar_alone, print_explained_fault, print_report, tell_nearest,
};
use pg_tree::Meter;
use std::alloc::AllocError;
use std::io;
use std::io::Input;
use std::rt::Files;

/// Prints for people what is wrong with the grammar in a file.
pub(crate) fn explain_file<R: AllocGlobal + Files + Input + Print + Eprint>(
    rt: &Handle<R>,
    grammar: &str,
    registry: &Registry,
    asked: &str,
) -> Result<u8, AllocError> {
    match grammar_alone(rt, grammar)? {
        Some(bytes) => explain_read(rt, bytes.as_slice(), grammar, registry, asked),
        None => Ok(UNUSABLE),
    }
}

/// As `explain_file`, for the bytes of the file.
fn explain_read<R: AllocGlobal + Print + Eprint>(
    rt: &Handle<R>,
    bytes: &[u8],
    grammar: &str,
    registry: &Registry,
    asked: &str,
) -> Result<u8, AllocError>
    ensures { IfOk result (IsCheckStatus (offer_of registry.now) bytes.now) }
{
    match load(rt.alloc(), grammar, bytes, registry) {
        Ok(loaded) => {
            let status = explain_grammar(rt, &loaded, registry, asked);
            drop(loaded);
            status
        }
        Err(fault) => print_explained_fault(rt, fault, bytes, grammar, registry),
    }
}

/// Prints what is wrong with the grammar of a loaded file.
fn explain_grammar<R: AllocGlobal + Print + Eprint>(
    rt: &Handle<R>,
    loaded: &LoadedFile,
    registry: &Registry,
    asked: &str,
) -> Result<u8, AllocError>
    requires fits { Fits (offer_of registry.now) (judged_grammar loaded.now.judgement) }
    requires table { initial (judged_grammar loaded.now.judgement) ≡ whole loaded.now.table }
    ensures { IfOk result (IsJudgedStatus (judged_grammar loaded.now.judgement)) }
{
    let mut writer = Meter::new(io::writer(rt));
    match explain_loaded(rt.alloc(), loaded, registry, &mut writer, asked) {
        Ok(Explained::Accepted) => Ok(0),
        Ok(Explained::Refused) => Ok(NO),
        Ok(Explained::NotThere) => {
            tell_nearest(rt, loaded.judgement.grammar(), loaded.name, asked)
        }
        Err(fault) => print_report(rt, fault, Names::of_grammar(loaded.name)),
    }
}
