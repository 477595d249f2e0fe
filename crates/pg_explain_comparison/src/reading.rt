//! The trees that a run gives to a sample. If the run reads the text, they are the trees that the grammar's users get.

ghost use Rattle.std.specs.Prelude.{◌≡◌, IfOk, IfSome};
ghost use Rattle.pg_pred.specs.Offer.{offer_of};
ghost use Rattle.pg_grammar_value.specs.Fits.{Fits};
ghost use Rattle.pg_explain_comparison.specs.Kept.{IsReadSo, IsSample, IsWhole};

use crate::samples::Sample;
use pg_grammar_value::Grammar;
use pg_language::Reading;
use pg_machine::{Answer, Outcome, Success, probe};
use pg_pred::Registry;
use pg_table::Table;
use pg_text::Text;
use std::alloc::{AllocError, Global};

/// The most steps of a run.
pub(crate) const STEPS: u64 = 5_000;

/// The sample with the trail and the trees of a run that reads its whole text in 5,000 steps, or the sample unchanged if there is no such run. The caller
/// ensures that the registry fits.
pub(crate) fn as_read(
    alloc: Global,
    grammar: &Grammar,
    table: &Table,
    registry: &Registry,
    sample: Sample,
) -> Result<Sample, AllocError>
    requires fits { Fits (offer_of registry.now) grammar.now }
    requires sample { IsSample grammar.now table.now sample }
    ensures { IfOk result (IsSample grammar.now table.now) }
{
    match read(alloc, grammar, table, registry, &sample.text)? {
        Some(success) => Ok(with_trees(sample, success)),
        None => Ok(sample),
    }
}

/// The sample with the trail and the trees of a run.
fn with_trees(sample: Sample, success: Success) -> Sample
    ensures text { result.text ≡ sample.text }
    ensures trail { result.trail ≡ success.trail }
    ensures forest { result.forest ≡ success.forest }
{
    let Sample { text, .. } = sample;
    let Success { trail, forest, .. } = success;
    Sample {
        text,
        trail,
        forest,
    }
}

/// What a run returns, if it reads the whole text in 5,000 steps. The caller ensures that the registry fits.
pub(crate) fn read(
    alloc: Global,
    grammar: &Grammar,
    table: &Table,
    registry: &Registry,
    text: &Text,
) -> Result<Option<Success>, AllocError>
    requires { Fits (offer_of registry.now) grammar.now }
    ensures { IfOk result (λ found. IfSome found (IsReadSo grammar.now table.now text.now)) }
{
    let outcome = probe(
        alloc,
        grammar,
        text,
        table,
        registry,
        STEPS,
        Reading::Library,
    )?;
    match outcome {
        Outcome::Answered(answer) => {
            let Answer { success, .. } = answer;
            Ok(whole(text, success))
        }
        Outcome::StepsUsed | Outcome::EmptyRound => Ok(None),
    }
}

/// What an ok answer returns, if the whole text was read.
fn whole(text: &Text, success: Option<Success>) -> Option<Success>
    ensures { IfSome result (IsWhole text.now success) }
{
    let success = success?;
    if success.place == text.len() {
        Some(success)
    } else {
        None
    }
}
