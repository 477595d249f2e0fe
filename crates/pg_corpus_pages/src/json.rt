//! A line of JSON for each case, for scripts.

use crate::told::Told;
use pg_corpus_judging::Trial;
use pg_tree::push_quoted;
use std::alloc::{AllocError, Global};

/// Appends the line of a case (ours): its `file`, its `line`, its `name`, the rule at which it starts if it has one (`start`), and whether it `passed`. One that
/// failed also has what was `wanted` and what `came`, and one that can't be tried what was `wanted` and the `reason`. The only error is that memory runs out.
pub fn push_json(alloc: Global, page: &mut Vec<u8>, told: Told) -> Result<(), AllocError> {
    push_head(alloc, page, told)?;
    match told.trial {
        Trial::Passed => page.extend_from_slice(b",\"passed\":true")?,
        Trial::Failed(came) => push_failed(page, told.case.wanted, "came", came.as_slice())?,
        Trial::Untried(why) => push_failed(page, told.case.wanted, "reason", why.as_slice())?,
    }
    page.extend_from_slice(b"}\n")
}

/// Appends what names a case.
fn push_head(alloc: Global, page: &mut Vec<u8>, told: Told) -> Result<(), AllocError> {
    page.push(b'{')?;
    push_text(page, "file", told.file.as_bytes())?;
    push_line(alloc, page, told.case.line)?;
    push_text(page, "name", told.case.name)?;
    match told.case.start {
        Some(rule) => {
            page.push(b',')?;
            push_text(page, "start", rule)
        }
        None => Ok(()),
    }
}

/// Appends the number of a case's line, between commas.
fn push_line(alloc: Global, page: &mut Vec<u8>, line: u32) -> Result<(), AllocError> {
    let text = format!(in alloc; ",\"line\":{line},")?;
    page.extend_from_slice(text.as_bytes())
}

/// Appends that a case failed, what was wanted, and something else with this key.
fn push_failed(
    page: &mut Vec<u8>,
    wanted: &[u8],
    key: &str,
    other: &[u8],
) -> Result<(), AllocError> {
    page.extend_from_slice(b",\"passed\":false,")?;
    push_text(page, "wanted", wanted)?;
    page.push(b',')?;
    push_text(page, key, other)
}

/// Appends a key and a text.
fn push_text(page: &mut Vec<u8>, key: &str, text: &[u8]) -> Result<(), AllocError> {
    push_quoted(key.as_bytes(), page)?;
    page.push(b':')?;
    push_quoted(text, page)
}
