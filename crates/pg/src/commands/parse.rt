//! Parsing texts by a grammar.
//!
//! The grammar is loaded once. Each text is read and run once, whatever is printed of it.

ghost use Rattle.std.specs.Prelude.{◌≡◌, ◌⊎◌, IfOk};
ghost use Rattle.pg_pred.specs.Offer.{offer_of};
ghost use Rattle.pg_grammar_value.specs.Fits.{Fits};
ghost use Rattle.pg_table.specs.Tables.{initial, whole};
ghost use Rattle.pg.specs.Status.{IsParseStatus, IsTextStatus};

use crate::NO_MEMORY;
use crate::commands::lines::line_of_file;
use crate::commands::places::places_text;
use pg_bench::{BenchFault, Done, ParsedText, parse_checked, parse_cost, parsed_text};
use pg_bench_explain::outline_success;
use pg_bench_grammar::AcceptedGrammar;
use pg_command_line::{Parsed, Parsing, Steps};
use pg_pred::Registry;
use pg_report::{
    Handle, Kept, Names, UNUSABLE, grammar_alone, inputs, loaded, opened, print_report, say,
    tell_byte, text_alone,
};
use pg_tree::{Meter, WriteFault};
use std::alloc::AllocError;
use std::io::{Input, Read};
use std::rt::Files;
use std::{cmp, io};

/// Parses each text by the grammar. The status is the greatest of all. With a line for each text, a single text is handled like several.
pub(crate) fn parse_files<R: AllocGlobal + Files + Input + Print + Eprint>(
    rt: &Handle<R>,
    grammar: &str,
    texts: &[&str],
    registry: &Registry,
    parsing: Parsing,
) -> Result<u8, AllocError> {
    match (texts, parsing.parsed) {
        ([text], Parsed::Forest | Parsed::ForestAndTrail | Parsed::Outline | Parsed::Places) => {
            parse_file(rt, grammar, text, registry, parsing)
        }
        _ => match grammar_alone(rt, grammar)? {
            Some(bytes) => parse_each(rt, bytes.as_slice(), grammar, texts, registry, parsing),
            None => Ok(UNUSABLE),
        },
    }
}

/// Parses the text in a file by the grammar in another.
fn parse_file<R: AllocGlobal + Files + Input + Print + Eprint>(
    rt: &Handle<R>,
    grammar: &str,
    text: &str,
    registry: &Registry,
    parsing: Parsing,
) -> Result<u8, AllocError> {
    match inputs(rt, grammar, text)? {
        Some((bytes, file)) => parse_open(
            rt,
            bytes.as_slice(),
            file,
            Names::of_text(grammar, text),
            registry,
            parsing,
        ),
        None => Ok(UNUSABLE),
    }
}

/// Parses the text in an open file by the grammar with these bytes. For an outline, the text is read before anything is said about the grammar.
fn parse_open<F: Read + Drop, R: AllocGlobal + Print + Eprint>(
    rt: &Handle<R>,
    bytes: &[u8],
    file: F,
    names: Names,
    registry: &Registry,
    parsing: Parsing,
) -> Result<u8, AllocError> {
    match parsing.parsed {
        Parsed::Outline => match text_alone(rt, file, names)? {
            Some(text) => outline_alone(rt, bytes, text.as_slice(), names, registry, parsing),
            None => Ok(UNUSABLE),
        },
        Parsed::ForestAndTrail | Parsed::Forest | Parsed::Line | Parsed::Places => {
            parse_text(rt, bytes, file, names, registry, parsing)
        }
    }
}

/// Prints the outline of the text with these bytes, or reports which of them belongs to no character.
fn outline_alone<R: AllocGlobal + Print + Eprint>(
    rt: &Handle<R>,
    bytes: &[u8],
    text: &[u8],
    names: Names,
    registry: &Registry,
    parsing: Parsing,
) -> Result<u8, AllocError> {
    let status = parse_text(rt, bytes, text, names, registry, parsing)?;
    if status == UNUSABLE {
        tell_byte(rt, text, names.text);
    }
    Ok(status)
}

/// Parses the text that a file gives by the grammar with these bytes.
fn parse_text<F: Read + Drop, R: AllocGlobal + Print + Eprint>(
    rt: &Handle<R>,
    bytes: &[u8],
    file: F,
    names: Names,
    registry: &Registry,
    parsing: Parsing,
) -> Result<u8, AllocError>
    ensures { IfOk result (IsParseStatus (offer_of registry.now) bytes.now (F.remaining file)) }
{
    match loaded(rt, bytes, names.grammar, registry) {
        Ok(Ok(accepted)) => {
            let status = parse_loaded(rt, &accepted, file, names, registry, parsing);
            drop(accepted);
            status
        }
        Ok(Err(status)) => Ok(status),
        Err(error) => Err(error),
    }
}

/// Parses several texts by the grammar with these bytes. What is wrong with the grammar is reported once.
fn parse_each<R: AllocGlobal + Files + Input + Print + Eprint>(
    rt: &Handle<R>,
    bytes: &[u8],
    grammar: &str,
    texts: &[&str],
    registry: &Registry,
    parsing: Parsing,
) -> Result<u8, AllocError> {
    match loaded(rt, bytes, grammar, registry) {
        Ok(Ok(accepted)) => {
            let status = parse_all(rt, &accepted, grammar, texts, registry, parsing);
            drop(accepted);
            status
        }
        Ok(Err(status)) => Ok(status),
        Err(error) => Err(error),
    }
}

/// Parses several texts by a loaded grammar. Where memory runs out, no more texts are parsed.
fn parse_all<R: AllocGlobal + Files + Input + Print + Eprint>(
    rt: &Handle<R>,
    accepted: &AcceptedGrammar,
    grammar: &str,
    texts: &[&str],
    registry: &Registry,
    parsing: Parsing,
) -> Result<u8, AllocError>
    requires fits { Fits (offer_of registry.now) accepted.now.checked.grammar }
    requires table { initial accepted.now.checked.grammar ≡ whole accepted.now.table }
{
    let mut greatest = 0;
    for text in texts {
        let names = Names::of_text(grammar, text);
        let status = match parsing.parsed {
            Parsed::Line if !rt.is_quiet => {
                line_of_file(rt, accepted, names, registry, parsing.steps)?
            }
            Parsed::Line
            | Parsed::Outline
            | Parsed::ForestAndTrail
            | Parsed::Forest
            | Parsed::Places => { parse_named(rt, accepted, names, registry, parsing)? }
        };
        greatest = cmp::max(greatest, status);
        if rt.has_failed() || status == NO_MEMORY {
            break;
        }
    }
    Ok(greatest)
}

/// Parses the text with this name by a loaded grammar, and prints what is wanted of it.
fn parse_named<R: AllocGlobal + Files + Input + Print + Eprint>(
    rt: &Handle<R>,
    accepted: &AcceptedGrammar,
    names: Names,
    registry: &Registry,
    parsing: Parsing,
) -> Result<u8, AllocError>
    requires fits { Fits (offer_of registry.now) accepted.now.checked.grammar }
    requires table { initial accepted.now.checked.grammar ≡ whole accepted.now.table }
{
    let Some(file) = opened(rt, names.text) else {
        return Ok(UNUSABLE);
    };
    match parsing.parsed {
        Parsed::Outline => outline_kept(rt, accepted, file, names, registry, parsing),
        Parsed::ForestAndTrail | Parsed::Forest | Parsed::Line | Parsed::Places => {
            parse_loaded(rt, accepted, file, names, registry, parsing)
        }
    }
}

/// Prints the outline of a text, or reports which of its bytes belongs to no character.
fn outline_kept<F: Read + Drop, R: AllocGlobal + Print + Eprint>(
    rt: &Handle<R>,
    accepted: &AcceptedGrammar,
    file: F,
    names: Names,
    registry: &Registry,
    parsing: Parsing,
) -> Result<u8, AllocError>
    requires fits { Fits (offer_of registry.now) accepted.now.checked.grammar }
    requires table { initial accepted.now.checked.grammar ≡ whole accepted.now.table }
{
    let mut text = Kept::new(rt.alloc(), file);
    let status = parse_loaded(rt, accepted, &mut text, names, registry, parsing)?;
    if status == UNUSABLE {
        tell_byte(rt, text.text(), names.text);
    }
    Ok(status)
}

/// Parses the text that a file gives by a loaded grammar, and prints what is wanted of it.
fn parse_loaded<F: Read + Drop, R: AllocGlobal + Print + Eprint>(
    rt: &Handle<R>,
    accepted: &AcceptedGrammar,
    file: F,
    names: Names,
    registry: &Registry,
    parsing: Parsing,
) -> Result<u8, AllocError>
    requires fits { Fits (offer_of registry.now) accepted.now.checked.grammar }
    requires table { initial accepted.now.checked.grammar ≡ whole accepted.now.table }
    ensures { IfOk result (IsTextStatus accepted.now.checked.grammar (F.remaining file)) }
{
    if rt.is_quiet {
        return parse_quietly(rt, accepted, file, names, registry);
    }
    match parsing.parsed {
        Parsed::Outline => outline_text(rt, accepted, file, names, registry, parsing.steps),
        Parsed::Places => places_text(rt, accepted, file, names, registry, parsing.steps),
        Parsed::ForestAndTrail | Parsed::Forest | Parsed::Line => {
            print_forest(rt, accepted, file, names, registry, parsing)
        }
    }
}

/// Parses a text of which nothing is printed, so nothing is made of its forest.
fn parse_quietly<F: Read + Drop, R: AllocGlobal + Print + Eprint>(
    rt: &Handle<R>,
    accepted: &AcceptedGrammar,
    file: F,
    names: Names,
    registry: &Registry,
) -> Result<u8, AllocError>
    requires fits { Fits (offer_of registry.now) accepted.now.checked.grammar }
    requires table { initial accepted.now.checked.grammar ≡ whole accepted.now.table }
    ensures { IfOk result (IsTextStatus accepted.now.checked.grammar (F.remaining file)) }
{
    let mut reader = Meter::new(file);
    match parse_cost(rt.alloc(), accepted, registry, &mut reader) {
        Ok(_cost) => Ok(0),
        Err(fault) => print_report(rt, fault, names),
    }
}

/// Prints the forest of a text, and its trail if that is wanted.
fn print_forest<F: Read + Drop, R: AllocGlobal + Print + Eprint>(
    rt: &Handle<R>,
    accepted: &AcceptedGrammar,
    file: F,
    names: Names,
    registry: &Registry,
    parsing: Parsing,
) -> Result<u8, AllocError>
    requires fits { Fits (offer_of registry.now) accepted.now.checked.grammar }
    requires table { initial accepted.now.checked.grammar ≡ whole accepted.now.table }
    ensures { IfOk result (IsTextStatus accepted.now.checked.grammar (F.remaining file)) }
{
    let with_trail = matches!(parsing.parsed, Parsed::ForestAndTrail);
    let mut reader = Meter::new(file);
    let mut writer = Meter::new(io::writer(rt));
    match parse_checked(
        rt.alloc(),
        accepted,
        registry,
        &mut reader,
        &mut writer,
        with_trail,
    ) {
        Ok(done) => {
            tell_steps(rt, done, names.text, parsing.steps);
            Ok(0)
        }
        Err(fault) => print_report(rt, fault, names),
    }
}

/// Prints the outline of a text's forest.
fn outline_text<F: Read + Drop, R: AllocGlobal + Print + Eprint>(
    rt: &Handle<R>,
    accepted: &AcceptedGrammar,
    file: F,
    names: Names,
    registry: &Registry,
    steps: Steps,
) -> Result<u8, AllocError>
    requires fits { Fits (offer_of registry.now) accepted.now.checked.grammar }
    requires table { initial accepted.now.checked.grammar ≡ whole accepted.now.table }
    ensures { IfOk result (IsTextStatus accepted.now.checked.grammar (F.remaining file)) }
{
    let mut reader = Meter::new(file);
    match parsed_text(rt.alloc(), accepted, registry, &mut reader) {
        Ok(parsed) => {
            tell_steps(rt, parsed.parse.done, names.text, steps);
            print_outline(rt, accepted, parsed, names)
        }
        Err(fault) => print_report(rt, fault, names),
    }
}

/// Prints the outline of a text's forest.
#[tactic(auto, using(pg_table::proofs::Added::own_table))]
fn print_outline<R: AllocGlobal + Print + Eprint>(
    rt: &Handle<R>,
    accepted: &AcceptedGrammar,
    parsed: ParsedText,
    names: Names,
) -> Result<u8, AllocError>
    requires { initial accepted.now.checked.grammar ≡ whole accepted.now.table }
    ensures { IfOk result (λ status. (status ≡ 0) ⊎ (status ≡ UNUSABLE)) }
{
    let ParsedText { text, parse } = parsed;
    let mut writer = Meter::new(io::writer(rt));
    let grammar = accepted.checked.as_checked().grammar();
    let table = &accepted.table;
    match outline_success(
        rt.alloc(),
        grammar,
        table,
        &text,
        parse.success,
        &mut writer,
    ) {
        Ok(()) => Ok(0),
        Err(WriteFault::Writer) => print_report(rt, BenchFault::Writer, names),
        Err(WriteFault::Memory) => Err(AllocError),
    }
}

/// Prints the steps of a parse to standard error, with the most that there can be.
pub(crate) fn tell_steps<R: Eprint>(rt: &R, done: Done, name: &str, steps: Steps) {
    let Done {
        steps: taken,
        most,
        planned,
        ..
    } = done;
    let way = if planned { ", along a plan" } else { "" };
    match steps {
        Steps::Hidden => {}
        Steps::Shown => say(rt, format_args!("{taken} steps, at most {most}{way}")),
        Steps::Named => say(
            rt,
            format_args!("{name}: {taken} steps, at most {most}{way}"),
        ),
    }
}
