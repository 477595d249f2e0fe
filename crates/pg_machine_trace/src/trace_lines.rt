//! The parts of the lines.

use pg_machine_turns::Reply;
use pg_message::{ParseError, render};
use pg_message_tape::{MessageTape, TapeError};
use pg_text::Pos;
use pg_text_excerpt::is_shown;
use std::alloc::{AllocError, Global};

/// How many columns a position takes, with the space after it.
const WIDTH: usize = 8;

/// The greatest depth of rules that is shown by indentation. Beyond it the depth is a number, since it can be as great as the text.
const MOST_DEEP: usize = 20;

/// The greatest number of messages of an error that is reported.
const MOST_MESSAGES: usize = 256;

/// The greatest number of characters of an error that are reported.
const MOST_SAID: usize = 200;

/// Pushes the beginning of a line: the position, and an indentation for the rules around.
pub(crate) fn push_front(
    alloc: Global,
    page: &mut String,
    position: Pos,
    depth: usize,
) -> Result<(), AllocError> {
    let line = position.line;
    let column = position.column;
    let place = format!(in alloc; "{line}:{column}")?;
    page.push_str(place.as_str())?;
    push_spaces(page, WIDTH.saturating_sub(place.len()).max(1))?;
    push_spaces(page, depth.min(MOST_DEEP).saturating_mul(2))?;
    if depth <= MOST_DEEP {
        return Ok(());
    }
    let depth = format!(in alloc; "[{depth}] ")?;
    page.push_str(depth.as_str())
}

fn push_spaces(page: &mut String, count: usize) -> Result<(), AllocError> {
    for _ in 0..count {
        page.push(' ')?;
    }
    Ok(())
}

/// Pushes the characters as they are.
pub(crate) fn push_characters(page: &mut String, characters: &[char]) -> Result<(), AllocError> {
    for c in characters {
        page.push(*c)?;
    }
    Ok(())
}

/// Pushes which of the four answers it is.
pub(crate) fn push_answer(page: &mut String, reply: Reply) -> Result<(), AllocError> {
    page.push_str(match reply {
        Reply::Succeeded { consumed: true, .. } => ": consumed ok ",
        Reply::Succeeded {
            consumed: false,
            ..
        } => ": empty ok",
        Reply::Failed { consumed: true, .. } => ": consumed error after ",
        Reply::Failed {
            consumed: false,
            ..
        } => ": empty error",
        Reply::EmptyRound => "",
    })
}

/// Pushes which alternatives of a choice aren't tried, up to the words before the text that the failed one read. The choice has this number in its rule.
pub(crate) fn push_lost(
    alloc: Global,
    page: &mut String,
    number: usize,
    which: usize,
    lost: usize,
) -> Result<(), AllocError> {
    let next = which.saturating_add(1);
    let last = which.saturating_add(lost);
    let words = match lost {
        1 => format!(in alloc; "alternative {next} isn't tried")?,
        2 => format!(in alloc; "alternatives {next} and {last} aren't tried")?,
        _ => format!(in alloc; "alternatives {next} to {last} aren't tried")?,
    };
    let line = format!(in alloc; ":{number}: {words}, since alternative {which} consumed ")?;
    page.push_str(line.as_str())
}

/// Pushes the messages of an error, if there aren't too many, and its position, if it lies beyond what was read.
pub(crate) fn push_error(
    alloc: Global,
    page: &mut String,
    messages: &MessageTape<'_>,
    error: TapeError,
    position: Pos,
    beyond: bool,
) -> Result<(), AllocError> {
    if messages.len().saturating_sub(error.from) > MOST_MESSAGES {
        return Ok(());
    }
    let error = messages.error(alloc, error, position)?;
    if beyond {
        push_position(alloc, page, position)?;
    }
    push_messages(alloc, page, &error)
}

fn push_position(alloc: Global, page: &mut String, position: Pos) -> Result<(), AllocError> {
    let line = position.line;
    let column = position.column;
    let place = format!(in alloc; " at {line}:{column}")?;
    page.push_str(place.as_str())
}

/// Pushes the printed lines of an error, without the one that has its position, in one line.
fn push_messages(alloc: Global, page: &mut String, error: &ParseError) -> Result<(), AllocError> {
    let printed = render(alloc, error, "")?;
    let mut left = MOST_SAID;
    for (number, line) in printed.lines().enumerate() {
        if number > 0 {
            page.push_str(if number == 1 { ": " } else { ", " })?;
            left = push_said(page, line, left)?;
        }
    }
    Ok(())
}

/// Pushes characters of a line as long as the limit allows, and returns what is left of the limit.
fn push_said(page: &mut String, line: &str, most: usize) -> Result<usize, AllocError> {
    let mut left = most;
    for c in line.chars() {
        if left == 0 {
            page.push_str("..")?;
            return Ok(0);
        }
        page.push(if is_shown(c) { c } else { '\u{fffd}' })?;
        left = left.saturating_sub(1);
    }
    Ok(left)
}

/// Pushes why a run stopped, and how many rules are open.
pub(crate) fn push_stop(
    alloc: Global,
    page: &mut String,
    why: &str,
    open: usize,
) -> Result<(), AllocError> {
    let words = if open == 1 { "rule is" } else { "rules are" };
    let line = format!(in alloc; "stopped: {why}, and {open} {words} open\n")?;
    page.push_str(line.as_str())
}
