//! The program `pgw`.
//!
//! The files that one answer needs are opened in the order of the words, and only then read. If there are several grammars or texts, each is opened when its
//! turn comes. Results go to standard output, and everything else to standard error: a line for a fault or a finding, and a parse error as Text.Parsec prints
//! it, but for the four differences in docs/PARSEC.md. The exit status is 0 for a result, 1 for a grammar that isn't accepted, a text that doesn't parse or a
//! probe that isn't ok, 2 for words or files that can't be used, and 3 if memory runs out. If standard error can't be written, the status doesn't change.
#![tactic(auto)]

mod commands;

use clap::ArgMatches;
use clap::error::ErrorKind;
use commands::Asked;
use pg_command_line::{command, is_quiet, request_of};
use pg_pages::page;
use pg_pred_program::with_registry;
use pg_report::{
    Handle, STANDARD_INPUT, UNUSABLE, cannot_write, null_file, print_page, refuse, say,
};
use std::alloc::{AllocError, Global};
use std::io::Input;
use std::process::ExitCode;
use std::rt::{Env, Files};
use std::{env, io};

/// The exit status if memory runs out.
const NO_MEMORY: u8 = 3;

fn main(rt: HostRuntime) -> ExitCode {
    ExitCode::from(status(&rt))
}

/// The exit status of the run.
fn status<R: AllocGlobal + Env + Files + Input + Print + Eprint>(rt: &R) -> u8 {
    let _first = null_file(rt);
    let _second = null_file(rt);
    let _third = null_file(rt);
    match run(rt) {
        Ok(status) => status,
        Err(_) => {
            say(rt, "out of memory");
            NO_MEMORY
        }
    }
}

/// Reads the words and does what they ask for.
fn run<R: AllocGlobal + Env + Files + Input + Print + Eprint>(rt: &R) -> Result<u8, AllocError> {
    let arguments = match env::args(rt) {
        Ok(arguments) => arguments,
        Err(error) if error.kind() == io::ErrorKind::OutOfMemory => return Err(AllocError),
        Err(_) => return Ok(refuse(rt, "pgw: an argument is not UTF-8")),
    };
    let mut words = Vec::new(rt.alloc());
    for argument in arguments {
        words.push(argument)?;
    }
    obey(rt, words.as_slice())
}

/// Does what the words ask for. The pages of codes are handled first, since the command line doesn't know codes as commands.
fn obey<R: AllocGlobal + Files + Input + Print + Eprint>(
    rt: &R,
    words: &[String],
) -> Result<u8, AllocError> {
    if let Some(pages) = pages_asked(rt.alloc(), words)? {
        return print_page(rt, pages.as_str());
    }
    if words
        .iter()
        .filter(|word| word.as_str() == STANDARD_INPUT)
        .count()
        > 1
    {
        return Ok(refuse(rt, "pgw: standard input (-) can be used only once"));
    }
    match command(rt.alloc())?.try_get_matches_from(words) {
        Ok(matches) => {
            let status = match_request(rt, &matches);
            drop(matches);
            status
        }
        Err(error) => {
            let status = tell(rt, &error);
            drop(error);
            status
        }
    }
}

/// The pages of codes, one after another, if the words ask for them as `help CODE ..`.
fn pages_asked(alloc: Global, words: &[String]) -> Result<Option<String>, AllocError> {
    match words {
        [_, help, codes @ ..] if help.as_str() == "help" && !codes.is_empty() => pages_of(
            alloc, codes,
        ),
        _ => Ok(None),
    }
}

/// The pages of codes, with a blank line between them; `None` if one of them isn't a code.
fn pages_of(alloc: Global, codes: &[String]) -> Result<Option<String>, AllocError> {
    let mut pages = String::new(alloc);
    for code in codes {
        if !push_page(&mut pages, code.as_str())? {
            return Ok(None);
        }
    }
    Ok(Some(pages))
}

/// Appends the page of a code, with a blank line before it unless it is the first. Answers whether it is a code.
fn push_page(pages: &mut String, code: &str) -> Result<bool, AllocError> {
    let Some(page) = page(code) else {
        return Ok(false);
    };
    if !pages.is_empty() {
        pages.push_str("\n")?;
    }
    pages.push_str(page)?;
    Ok(true)
}

/// Does what words ask for that the command line has accepted.
fn match_request<R: AllocGlobal + Files + Input + Print + Eprint>(
    rt: &R,
    matches: &ArgMatches,
) -> Result<u8, AllocError> {
    let handle = Handle::new(rt, is_quiet(matches));
    match request_of(matches) {
        Some(request) => with_registry(
            rt.alloc(),
            &Asked {
                handle: &handle,
                request,
            },
        ),
        None => Ok(refuse(rt, "pgw: no such command")),
    }
}

/// Prints why words were refused, or the help or version that they asked for.
fn tell<R: Print + Eprint>(rt: &R, error: &clap::Error) -> Result<u8, AllocError> {
    if error.kind() == ErrorKind::OutOfMemory {
        return Err(AllocError);
    }
    let printed = error.print(rt);
    if error.use_stderr() {
        Ok(UNUSABLE)
    } else if printed.is_err() {
        Ok(cannot_write(rt))
    } else {
        Ok(0)
    }
}
