//! The forms that are open while their parts are printed, the innermost first. Each has the number of its parts still
//! to come after the one being printed, and its ending.
//!
//! After the last part of the whole, no form is open.

ghost use Rattle.std.specs.Prelude.{◌≡◌, OnOk};
ghost use Rattle.pg_file_print.specs.Layout.{with_tokens};
ghost use Rattle.pg_file_print.specs.Levels.{ending_tokens, ended, left_over, closing, entered};

use crate::layout::Layout;
use pg_file_tokens::Mark;
use pg_text::Characters;
use std::alloc::{AllocError, Global};
use std::collections::VecDeque;

/// How a form ends.
#[derive(Drop)]
pub enum Ending {
    /// With nothing.
    Nothing,
    /// With a parenthesis.
    Close,
    /// With a message and a parenthesis.
    Message(Characters),
}

/// An open form.
#[derive(Drop)]
pub struct Level {
    /// How many of its parts come after the one being printed.
    pub left: usize,
    /// The mark between two parts.
    pub separator: Mark,
    /// How it ends.
    pub ending: Ending,
}

fn put_ending(alloc: Global, out: &mut Layout, ending: &Ending) -> Result<(), AllocError>
    ensures { OnOk result (out.new ≡ with_tokens out.old (ending_tokens ending.now)) }
{
    match ending {
        Ending::Nothing => Ok(()),
        Ending::Close => out.put_mark(Mark::Close),
        Ending::Message(message) => {
            out.put_mark(Mark::Comma)?;
            out.put_literal(alloc, message.as_slice())?;
            out.put_mark(Mark::Close)
        }
    }
}

/// After a part, prints the endings of the forms that end with it, and the mark before the next part.
#[tactic(auto, using(crate::proofs::PrinterLemmas::Tokens::laid_both))]
pub fn put_end(
    alloc: Global,
    out: &mut Layout,
    levels: &mut VecDeque<Level>,
) -> Result<(), AllocError>
    ensures text { OnOk result (out.new ≡ with_tokens out.old (ended levels.old.items)) }
    ensures levels { OnOk result (levels.new.items ≡ left_over levels.old.items) }
{
    while let Some(level) = levels.pop_front() {
        if let Some(left) = level.left.checked_sub(1) {
            out.put_mark(level.separator)?;
            let Level {
                separator,
                ending,
                ..
            } = level;
            levels.push_front(Level {
                left,
                separator,
                ending,
            })?;
            return Ok(());
        }
        put_ending(alloc, out, &level.ending)?;
    }
    Ok(())
}

/// After the front of a form with this many parts, opens its level, or ends the form if it has no parts.
#[tactic(auto, using(crate::proofs::PrinterLemmas::Tokens::laid_both))]
pub fn enter(
    alloc: Global,
    out: &mut Layout,
    levels: &mut VecDeque<Level>,
    count: usize,
    separator: Mark,
    ending: Ending,
) -> Result<(), AllocError>
    ensures text { OnOk result (out.new ≡ with_tokens out.old (closing count ending levels.old.items)) }
    ensures levels { OnOk result (levels.new.items ≡ entered count separator ending levels.old.items) }
{
    match count.checked_sub(1) {
        Some(left) => {
            levels.push_front(Level {
                left,
                separator,
                ending,
            })?;
            Ok(())
        }
        None => {
            put_ending(alloc, out, &ending)?;
            put_end(alloc, out, levels)
        }
    }
}
