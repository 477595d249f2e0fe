//! Findings as lines of JSON.

ghost use Rattle.std.specs.Prelude.{◌≡◌, ◌⊎◌, IfOk};
ghost use Rattle.pg_pred.specs.Offer.{offer_of};
ghost use Rattle.pg_grammar_value.specs.Fits.{Fits};
ghost use Rattle.pg_table.specs.Tables.{initial, whole};
ghost use Rattle.pg_bench_grammar.specs.Loading.{judged_grammar};
ghost use Rattle.pg.specs.Status.{IsCheckStatus, IsJudgedStatus};

use crate::commands::NO;
use pg_bench_explain::{json_notes, told_findings};
use pg_bench_grammar::{LoadedFile, load};
use pg_bench_json::json_loaded;
use pg_explain_json::ToldFinding;
use pg_pred::Registry;
use pg_report::{Handle, Names, print_json_fault, print_page, print_report};
use pg_tree::Meter;
use std::alloc::AllocError;
use std::io;

/// Writes the findings with their explanations, or the notes if these are wanted, or the faults of the file.
pub(crate) fn check_as_json<R: AllocGlobal + Print + Eprint>(
    rt: &Handle<R>,
    bytes: &[u8],
    grammar: &str,
    registry: &Registry,
    notes: bool,
) -> Result<u8, AllocError>
    ensures { IfOk result (IsCheckStatus (offer_of registry.now) bytes.now) }
{
    match load(rt.alloc(), grammar, bytes, registry) {
        Ok(loaded) => {
            let status = list_loaded(rt, &loaded, registry, notes);
            drop(loaded);
            status
        }
        Err(fault) => print_json_fault(rt, fault, bytes, grammar, registry),
    }
}

/// As `check_as_json`, for a loaded grammar file.
fn list_loaded<R: AllocGlobal + Print + Eprint>(
    rt: &Handle<R>,
    loaded: &LoadedFile,
    registry: &Registry,
    notes: bool,
) -> Result<u8, AllocError>
    requires fits { Fits (offer_of registry.now) (judged_grammar loaded.now.judgement) }
    requires table { initial (judged_grammar loaded.now.judgement) ≡ whole loaded.now.table }
    ensures { IfOk result (IsJudgedStatus (judged_grammar loaded.now.judgement)) }
{
    let told = told_of(rt, loaded, registry)?;
    let status = list_told(rt, loaded, &told, notes);
    drop(told);
    status
}

/// The explanations of findings; empty if nothing is printed.
fn told_of<R: AllocGlobal>(
    rt: &Handle<R>,
    loaded: &LoadedFile,
    registry: &Registry,
) -> Result<Vec<ToldFinding>, AllocError>
    requires fits { Fits (offer_of registry.now) (judged_grammar loaded.now.judgement) }
    requires table { initial (judged_grammar loaded.now.judgement) ≡ whole loaded.now.table }
{
    if rt.is_quiet {
        return Ok(Vec::new(rt.alloc()));
    }
    told_findings(rt.alloc(), loaded, registry)
}

/// Writes the findings, of which some have these explanations, or the notes.
fn list_told<R: AllocGlobal + Print + Eprint>(
    rt: &Handle<R>,
    loaded: &LoadedFile,
    told: &[ToldFinding],
    notes: bool,
) -> Result<u8, AllocError>
    ensures { IfOk result (IsJudgedStatus (judged_grammar loaded.now.judgement)) }
{
    let mut writer = Meter::new(io::writer(rt));
    match json_loaded(rt.alloc(), loaded, told, &mut writer) {
        Ok(true) => list_notes(rt, loaded, notes),
        Ok(false) => Ok(NO),
        Err(fault) => print_report(rt, fault, Names::of_grammar(loaded.name)),
    }
}

/// Writes the notes on an accepted grammar, if these are wanted.
fn list_notes<R: AllocGlobal + Print + Eprint>(
    rt: &Handle<R>,
    loaded: &LoadedFile,
    notes: bool,
) -> Result<u8, AllocError>
    ensures { IfOk result (λ status. (status ≡ 2) ⊎ (status ≡ 0)) }
{
    if !notes {
        return Ok(0);
    }
    let lines = json_notes(rt.alloc(), loaded)?;
    print_page(rt, lines.as_str())
}
