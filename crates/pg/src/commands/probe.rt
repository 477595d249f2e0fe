//! Runs of any grammar on a text, as Parsec would.

ghost use Rattle.std.specs.Prelude.{◌≡◌, ◌⊎◌, Some, IfOk};
ghost use Rattle.pg_pred.specs.Offer.{offer_of};
ghost use Rattle.pg_grammar_value.specs.Fits.{Fits};
ghost use Rattle.pg_table.specs.Tables.{initial, whole};
ghost use Rattle.pg.specs.Status.{IsProbeStatus, IsRunStatus, IsTracedStatus};

use crate::commands::NO;
use pg_bench::{probe_bytes, text_of};
use pg_bench_grammar::placed_of;
use pg_file_making::PlacedGrammar;
use pg_grammar_form::RuleId;
use pg_language::Reading;
use pg_machine_trace::{Tracer, rule_named};
use pg_pred::Registry;
use pg_report::{
    ErrorWriter, Handle, Names, UNUSABLE, inputs, print_report, print_text_fault, tell_nearest,
    text_alone,
};
use pg_text::Text;
use pg_tree::Meter;
use std::alloc::AllocError;
use std::io;
use std::io::{Input, Read};
use std::rt::Files;

/// What a probe does: the most steps it takes, its reading, whether it traces the run, and the one rule that it traces, or all if this is empty.
#[derive(Clone, Copy)]
pub(crate) struct Probing<'a> {
    pub max_steps: u64,
    pub reading: Reading,
    pub trace: bool,
    pub only: &'a str,
}

/// Runs the start rule of the grammar in a file on the text in another.
pub(crate) fn probe_files<R: AllocGlobal + Files + Input + Print + Eprint>(
    rt: &Handle<R>,
    grammar: &str,
    text: &str,
    registry: &Registry,
    probing: Probing,
) -> Result<u8, AllocError> {
    match inputs(rt, grammar, text)? {
        Some((bytes, file)) => {
            let names = Names::of_text(grammar, text);
            if probing.trace {
                trace_file(rt, bytes.as_slice(), file, names, registry, probing)
            } else {
                probe_text(rt, bytes.as_slice(), file, names, registry, probing)
            }
        }
        None => Ok(UNUSABLE),
    }
}

/// As `probe_text`, with a trace of the run before the answer.
fn trace_file<F: Read + Drop, R: AllocGlobal + Print + Eprint>(
    rt: &Handle<R>,
    bytes: &[u8],
    file: F,
    names: Names,
    registry: &Registry,
    probing: Probing,
) -> Result<u8, AllocError> {
    match text_alone(rt, file, names)? {
        Some(text) => trace_text(rt, bytes, text.as_slice(), names, registry, probing),
        None => Ok(UNUSABLE),
    }
}

/// As `trace_file`, for the text with these bytes. The grammar is read once. If the grammar or the text can't be used, only the reason is printed.
fn trace_text<R: AllocGlobal + Print + Eprint>(
    rt: &Handle<R>,
    bytes: &[u8],
    text: &[u8],
    names: Names,
    registry: &Registry,
    probing: Probing,
) -> Result<u8, AllocError>
    ensures { IfOk result (IsProbeStatus (offer_of registry.now) bytes.now (Some text.now) names.entry.text.now probing.entry.max_steps probing.entry.reading) }
{
    match placed_of(rt.alloc(), bytes, registry) {
        Ok(placed) => {
            let status = trace_run(rt, &placed, text, names, registry, probing);
            drop(placed);
            status
        }
        Err(fault) => print_report(rt, fault, names),
    }
}

/// As `trace_text`, for the grammar that the bytes spell. If that has no such rule, this is reported before anything is said about the text.
fn trace_run<R: AllocGlobal + Print + Eprint>(
    rt: &Handle<R>,
    placed: &PlacedGrammar,
    text: &[u8],
    names: Names,
    registry: &Registry,
    probing: Probing,
) -> Result<u8, AllocError>
    requires fits { Fits (offer_of registry.now) placed.now.grammar }
    requires table { initial placed.now.grammar ≡ whole placed.now.table }
    ensures { IfOk result (IsRunStatus placed.now.grammar (Some text.now) names.entry.text.now probing.entry.max_steps probing.entry.reading) }
{
    let only = rule_named(rt.alloc(), &placed.grammar, probing.only)?;
    if only.is_none() && !probing.only.is_empty() {
        return tell_nearest(rt, &placed.grammar, names.grammar, probing.only);
    }
    match text_of(rt.alloc(), text) {
        Ok(text) => {
            let traced = Traced { text: &text, only };
            let status = trace_probe(rt, placed, traced, names, registry, probing);
            drop(text);
            status
        }
        Err(fault) => print_text_fault(rt, fault, text, names),
    }
}

/// A text that is run with a trace, and the one rule that is traced, or all.
#[derive(Clone, Copy)]
struct Traced<'t> {
    text: &'t Text,
    only: Option<RuleId>,
}

/// As `trace_run`, for this text and one rule or all. The run that is traced is the one that is answered. If standard error can't be written, the answer is
/// printed all the same, with the status for output that can't be written.
fn trace_probe<R: AllocGlobal + Print + Eprint>(
    rt: &Handle<R>,
    placed: &PlacedGrammar,
    traced: Traced,
    names: Names,
    registry: &Registry,
    probing: Probing,
) -> Result<u8, AllocError>
    requires fits { Fits (offer_of registry.now) placed.now.grammar }
    requires table { initial placed.now.grammar ≡ whole placed.now.table }
    ensures { IfOk result (IsTracedStatus placed.now.grammar traced.entry.text.now names.entry.text.now probing.entry.max_steps probing.entry.reading) }
{
    let asked = pg_bench::Probing {
        name: names.text,
        max_steps: probing.max_steps,
        reading: probing.reading,
    };
    let Traced { text, only } = traced;
    let mut errors = ErrorWriter { rt };
    let mut tracer = Tracer::new(rt.alloc(), &placed.grammar, text, only, &mut errors)?;
    let mut writer = Meter::new(io::writer(rt));
    let probed = pg_bench::probe_text(
        rt.alloc(),
        placed,
        registry,
        text,
        &asked,
        &mut tracer,
        &mut writer,
    );
    let is_told = tracer.writes();
    drop(tracer);
    match probed {
        Ok(true) => Ok(told(0, is_told)),
        Ok(false) => Ok(told(NO, is_told)),
        Err(fault) => print_report(rt, fault, names),
    }
}

/// The status of an answer: this one if the trace was written, else the one for output that can't be written.
fn told(status: u8, is_told: bool) -> u8
    ensures { (result ≡ status) ⊎ (result ≡ UNUSABLE) }
{
    if is_told { status } else { UNUSABLE }
}

/// Runs the start rule of the grammar with these bytes on the text that a file gives, and prints its answer.
fn probe_text<F: Read + Drop, R: AllocGlobal + Print + Eprint>(
    rt: &Handle<R>,
    bytes: &[u8],
    file: F,
    names: Names,
    registry: &Registry,
    probing: Probing,
) -> Result<u8, AllocError>
    ensures { IfOk result (IsProbeStatus (offer_of registry.now) bytes.now (F.remaining file) names.entry.text.now probing.entry.max_steps probing.entry.reading) }
{
    let mut reader = Meter::new(file);
    let mut writer = Meter::new(io::writer(rt));
    match probe_bytes(
        rt.alloc(),
        bytes,
        registry,
        names.text,
        &mut reader,
        &mut writer,
        probing.max_steps,
        probing.reading,
    ) {
        Ok(true) => Ok(0),
        Ok(false) => Ok(NO),
        Err(fault) => print_report(rt, fault, names),
    }
}
