//! A case, tried by a probe of any grammar: what the start rule answers on its text, of which it needn't read all.
//!
//! Here an error may say whether input was consumed: `consumed error` and `empty error`, alone or followed by lines, as well as `error`.

ghost use Rattle.std.specs.Prelude.{◌≡◌};
ghost use Rattle.pg_pred.specs.Offer.{offer_of};
ghost use Rattle.pg_grammar_value.specs.Fits.{Fits};

use crate::came::came_from;
use pg_corpus_judging::{Came, Trial, came_instead, trial_for, untried};
use pg_grammar_value::Grammar;
use pg_language::Reading;
use pg_machine::{Answer, Outcome, probe};
use pg_pred::Registry;
use pg_table::Table;
use pg_text::{Text, TextFault};
use std::alloc::{AllocError, Global};

/// The most steps of a probe, as many as `pgw probe` takes if none are given (ours).
const STEPS: u64 = 1_000_000;

/// Tries a text by a probe of a grammar under this table, in the library's reading: whether the start rule answers what is wanted (ours). The registry has what
/// the grammar names in it. A text of more than 1,048,576 characters isn't tried, and neither is one to which there is no answer within 1,000,000 steps, or for
/// which Text.Parsec raises an error. The only error is that memory runs out.
pub fn tried_by_probe(
    alloc: Global,
    grammar: &Grammar,
    table: &Table,
    registry: &Registry,
    bytes: &[u8],
    wanted: &[u8],
) -> Result<Trial, AllocError>
    requires { Fits (offer_of registry.now) grammar.now }
{
    match Text::from_bytes(alloc, bytes) {
        Ok(text) => probed(alloc, grammar, table, registry, &text, wanted),
        Err(TextFault::NotUtf8) => untried(alloc, b"P1 not UTF-8"),
        Err(TextFault::TooLong) => untried(alloc, b"P2 text too long"),
        Err(TextFault::Memory) => Err(AllocError),
    }
}

/// Tries a text.
fn probed(
    alloc: Global,
    grammar: &Grammar,
    table: &Table,
    registry: &Registry,
    text: &Text,
    wanted: &[u8],
) -> Result<Trial, AllocError>
    requires { Fits (offer_of registry.now) grammar.now }
{
    match probe(
        alloc,
        grammar,
        text,
        table,
        registry,
        STEPS,
        Reading::Library,
    )? {
        Outcome::Answered(answer) => trial_of_answer(alloc, wanted, answer),
        Outcome::StepsUsed => untried(alloc, b"P5 steps used up"),
        Outcome::EmptyRound => untried(alloc, b"P6 empty repetition"),
    }
}

/// Whether this is the answer that is wanted.
fn trial_of_answer(alloc: Global, wanted: &[u8], answer: Answer) -> Result<Trial, AllocError> {
    let word = consumption(answer.consumed);
    let came = came_from(answer);
    let other = answered_instead(alloc, wanted, word, &came);
    drop(came);
    match other {
        Ok(other) => Ok(trial_for(other)),
        Err(error) => Err(error),
    }
}

/// The word before `error` for whether input was consumed.
fn consumption(consumed: bool) -> &'static [u8] {
    if consumed { b"consumed " } else { b"empty " }
}

/// What came instead of what is wanted, with this word before it if it is an error.
fn answered_instead(
    alloc: Global,
    wanted: &[u8],
    word: &[u8],
    came: &Came,
) -> Result<Option<Vec<u8>>, AllocError> {
    match came {
        Came::Trees(_) => came_instead(alloc, wanted, came),
        Came::Error(_) => {
            let other = came_instead(alloc, without(wanted, word), came)?;
            behind(alloc, word, other)
        }
    }
}

/// The bytes without this word, if they begin with it.
fn without<'a>(bytes: &'a [u8], word: &[u8]) -> &'a [u8] {
    let (front, rest) = bytes.split_at(bytes.len().min(word.len()));
    if front == word { rest } else { bytes }
}

/// A page, if there is one, with this word before it.
fn behind(
    alloc: Global,
    word: &[u8],
    page: Option<Vec<u8>>,
) -> Result<Option<Vec<u8>>, AllocError> {
    let Some(page) = page else {
        return Ok(None);
    };
    let mut longer = Vec::from_slice(alloc, word)?;
    longer.extend_from_slice(page.as_slice())?;
    Ok(Some(longer))
}
