//! Explanations for people of why a file can't be used: what a fault of a grammar file means, which name is nearest, and which byte of a text belongs to no
//! character.

ghost use Rattle.std.specs.Prelude.{◌≡◌, IfOk};
ghost use Rattle.pg_report.specs.Status.{status_of};

use crate::handle::Handle;
use crate::printing::{UNUSABLE, not_there, print_fault, print_report, put, say};
use crate::reporting::Names;
use pg_bench_grammar::BenchFault;
use pg_explain_faults::{fault_page, nearest_rule};
use pg_file::FileFault;
use pg_file_faults::{ToldFault, faults_of};
use pg_grammar_value::Grammar;
use pg_pred::Registry;
use pg_text::{Pos, advanced};
use std::alloc::{AllocError, Global};

/// Prints the report of a fault. If it is a fault of the grammar file with these bytes, also prints what it means and the file's other faults. Answers its
/// status.
pub fn print_explained_fault<R: AllocGlobal + Eprint>(
    rt: &Handle<R>,
    fault: BenchFault,
    bytes: &[u8],
    grammar: &str,
    registry: &Registry,
) -> Result<u8, AllocError>
    ensures { IfOk result (λ status. status ≡ status_of fault) }
{
    let printed = explained_fault(rt, &fault, bytes, grammar, registry);
    drop(fault);
    printed
}

/// As `print_explained_fault`, for a borrowed fault.
fn explained_fault<R: AllocGlobal + Eprint>(
    rt: &Handle<R>,
    fault: &BenchFault,
    bytes: &[u8],
    grammar: &str,
    registry: &Registry,
) -> Result<u8, AllocError>
    ensures { IfOk result (λ status. status ≡ status_of fault.now) }
{
    let page = fault_words(rt.alloc(), bytes, grammar, registry, fault)?;
    let status = print_fault(rt, fault, Names::of_grammar(grammar))?;
    put(rt, page.as_str());
    Ok(status)
}

/// What a fault of a grammar file means, and the file's other faults; empty for any other fault.
fn fault_words(
    alloc: Global,
    bytes: &[u8],
    grammar: &str,
    registry: &Registry,
    fault: &BenchFault,
) -> Result<String, AllocError> {
    match fault {
        BenchFault::File(fault) => faults_page(alloc, bytes, grammar, registry, fault),
        BenchFault::Refused(_)
        | BenchFault::Reader
        | BenchFault::NotUtf8
        | BenchFault::TooLong
        | BenchFault::NotATrail
        | BenchFault::NotVerified(_)
        | BenchFault::ParseError(_)
        | BenchFault::Writer
        | BenchFault::Memory => Ok(String::new(alloc)),
    }
}

/// What the first fault of a grammar file means, and the lines of the later ones with what they mean.
fn faults_page(
    alloc: Global,
    bytes: &[u8],
    grammar: &str,
    registry: &Registry,
    first: &FileFault,
) -> Result<String, AllocError> {
    let told = faults_of(alloc, bytes, registry, first)?;
    let mut page = String::new(alloc);
    for (number, one) in told.iter().enumerate() {
        if number > 0 {
            push_line(alloc, &mut page, grammar, &one.fault)?;
        }
        push_page(alloc, &mut page, grammar, bytes, one)?;
    }
    Ok(page)
}

/// Appends a blank line and the line of a fault of a grammar file with this name.
fn push_line(
    alloc: Global,
    page: &mut String,
    grammar: &str,
    fault: &FileFault,
) -> Result<(), AllocError> {
    let line = format!(in alloc; "\n{grammar}:{fault}\n")?;
    page.push_str(line.as_str())
}

/// Appends what a fault of the file with these bytes means.
fn push_page(
    alloc: Global,
    page: &mut String,
    grammar: &str,
    bytes: &[u8],
    told: &ToldFault,
) -> Result<(), AllocError> {
    let words = fault_page(alloc, grammar, bytes, told.file.as_slice(), &told.fault)?;
    page.push_str(words.as_str())
}

/// Says that the grammar of a file with this name has no such rule or node, and which rule has the nearest name. Answers the status.
pub fn tell_nearest<R: AllocGlobal + Eprint>(
    rt: &Handle<R>,
    grammar: &Grammar,
    name: &str,
    asked: &str,
) -> Result<u8, AllocError>
    ensures { IfOk result (λ status. status ≡ UNUSABLE) }
{
    let nearest = nearest_rule(rt.alloc(), grammar, rule_asked(asked))?;
    let status = not_there(rt.rt, name, asked);
    if let Some(rule) = nearest {
        say(rt, format_args!("did you mean {rule}?"));
    }
    Ok(status)
}

/// The rule of `RULE` or `RULE:NODE`.
fn rule_asked(asked: &str) -> &str {
    match asked.split_once(':') {
        Some((rule, _)) => rule,
        None => asked,
    }
}

/// Prints the report of a fault of a text with these bytes, and where the text isn't UTF-8 if it isn't. Answers the status.
pub fn print_text_fault<R: AllocGlobal + Eprint>(
    rt: &Handle<R>,
    fault: BenchFault,
    text: &[u8],
    names: Names,
) -> Result<u8, AllocError>
    ensures { IfOk result (λ status. status ≡ status_of fault) }
{
    let printed = print_report(rt, fault, names);
    tell_byte(rt, text, names.text);
    printed
}

/// Says which byte of a text is the first that belongs to no character, counting from 0, and its line and column. Says nothing if the text is UTF-8 or the
/// handle is quiet.
pub fn tell_byte<R: Eprint>(rt: &Handle<R>, text: &[u8], name: &str) {
    if let Err(error) = str::from_utf8(text) {
        let place = error.valid_up_to();
        let Pos { line, column } = position_after(&text[..place]);
        say(
            rt,
            format_args!("{name}:{line}:{column}: byte {place} isn't part of a UTF-8 character"),
        );
    }
}

/// The position after the characters that these bytes spell.
fn position_after(front: &[u8]) -> Pos {
    let mut position = Pos { line: 1, column: 1 };
    for c in str::from_utf8(front).unwrap_or("").chars() {
        position = advanced(position, c);
    }
    position
}
