//! The lines of an error, as a case has them: where it is, and what was unexpected and expected there.

ghost use Rattle.std.specs.Prelude.{◌≡◌, ◌++◌, IfOk, OnOk};
ghost use Rattle.pg_message.specs.Printed.{messages_text};
ghost use Rattle.pg_corpus_judging.specs.Judging.{error_lines, below, place_line};
ghost use Rattle.std.specs.String.{string_bytes};

use pg_message::{ParseError, render};
use pg_text::Pos;
use std::alloc::{AllocError, Global};

/// The lines of an error, without the last line feed: `line 1, column 5`, and below that what `pgw parse` prints (ours). The only error is that memory runs out.
pub(crate) fn error_lines(alloc: Global, error: &ParseError) -> Result<Vec<u8>, AllocError>
    ensures { IfOk result (λ lines. lines.items ≡ error_lines error.now) }
{
    let mut page = place_line(alloc, error.position)?.into_bytes();
    push_messages(alloc, &mut page, error)?;
    page.truncate(page.len().saturating_sub(1));
    Ok(page)
}

/// The line with the place of an error.
fn place_line(alloc: Global, position: Pos) -> Result<String, AllocError>
    ensures { IfOk result (λ line. string_bytes line ≡ place_line position) }
{
    let Pos { line, column } = position;
    format!(in alloc; "line {line}, column {column}")
}

/// Appends the messages of an error, from a line feed on.
fn push_messages(alloc: Global, page: &mut Vec<u8>, error: &ParseError) -> Result<(), AllocError>
    ensures { OnOk result (page.new.items ≡ page.old.items ++ below (messages_text error.now.messages)) }
{
    let messages = messages_of(alloc, error)?;
    if messages.first() != Some(&b'\n') {
        page.push(b'\n')?;
    }
    page.extend_from_slice(messages.as_slice())
}

/// The messages of an error, as they stand behind its place.
#[tactic(auto, using(crate::proofs::Messages::behind_front, crate::proofs::Messages::front_within))]
fn messages_of(alloc: Global, error: &ParseError) -> Result<Vec<u8>, AllocError>
    ensures { IfOk result (λ text. text.items ≡ messages_text error.now.messages) }
{
    let Pos { line, column } = error.position;
    let front = format!(in alloc; "\"\" (line {line}, column {column}):")?;
    let printed = render(alloc, error, "")?;
    Vec::from_slice(alloc, &printed.as_bytes()[front.len()..])
}
