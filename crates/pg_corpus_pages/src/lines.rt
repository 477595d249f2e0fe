//! Lines for people: a case's file, line and name, and how what came differs from what is wanted.

use crate::told::Told;
use pg_corpus_difference::{difference, push_rows};
use pg_corpus_judging::Trial;
use std::alloc::{AllocError, Global};

/// Appends what is printed of a case (ours). One that passed has a line `FILE:LINE: passed: NAME` if all are listed, and else none. One that failed has such a
/// line, and below it the rows of a difference: lines of both behind a blank, lines that were wanted behind `-`, and lines that came behind `+`. The only error
/// is that memory runs out.
pub fn push_lines(
    alloc: Global,
    page: &mut Vec<u8>,
    told: Told,
    lists_all: bool,
) -> Result<(), AllocError> {
    match told.trial {
        Trial::Passed => {
            if lists_all {
                push_heading(alloc, page, told, "passed")
            } else {
                Ok(())
            }
        }
        Trial::Failed(came) => push_failed(alloc, page, told, "failed", came.as_slice()),
        Trial::Untried(why) => push_failed(alloc, page, told, "not tried", why.as_slice()),
    }
}

/// Appends the line of a case that failed, and the rows below it.
fn push_failed(
    alloc: Global,
    page: &mut Vec<u8>,
    told: Told,
    word: &str,
    came: &[u8],
) -> Result<(), AllocError> {
    push_heading(alloc, page, told, word)?;
    let rows = difference(alloc, told.case.wanted, came)?;
    push_rows(page, rows.as_slice())
}

/// Appends the line of a case.
fn push_heading(
    alloc: Global,
    page: &mut Vec<u8>,
    told: Told,
    word: &str,
) -> Result<(), AllocError> {
    push_front(alloc, page, told.file, told.case.line, word)?;
    page.extend_from_slice(told.case.name)?;
    push_start(page, told.case.start)?;
    page.push(b'\n')?;
    Ok(())
}

/// Appends the part of a case's line before its name.
fn push_front(
    alloc: Global,
    page: &mut Vec<u8>,
    file: &str,
    line: u32,
    word: &str,
) -> Result<(), AllocError> {
    let front = format!(in alloc; "{file}:{line}: {word}: ")?;
    page.extend_from_slice(front.as_bytes())
}

/// Appends the rule at which a case starts, if it has one.
fn push_start(page: &mut Vec<u8>, start: Option<&[u8]>) -> Result<(), AllocError> {
    let Some(rule) = start else {
        return Ok(());
    };
    page.extend_from_slice(b" [")?;
    page.extend_from_slice(rule)?;
    page.push(b']')?;
    Ok(())
}
