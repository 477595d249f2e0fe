//! A case, tried by a checked grammar.

ghost use Rattle.std.specs.Prelude.{◌≡◌, IfOk};
ghost use Rattle.pg_pred.specs.Offer.{offer_of};
ghost use Rattle.pg_grammar_value.specs.Fits.{Fits};
ghost use Rattle.pg_table.specs.Tables.{initial, whole};
ghost use Rattle.pg_corpus_judging.specs.Judging.{IsTrialOf, IsTrialOfText};

use crate::came::came_of;
use pg_corpus_judging::{Trial, trial_of, untried};
use pg_pred::Registry;
use pg_predict::Checked;
use pg_table::Table;
use pg_text::{Text, TextFault};
use std::alloc::{AllocError, Global};

/// Tries a text by a checked grammar, whose initial table this is: whether it comes to what is wanted (ours). The registry has what the grammar names in it. A
/// text of more than 1,048,576 characters isn't tried. The only error is that memory runs out.
#[tactic(auto, using(pg_corpus_judging::proofs::Trials::bytes_tried, pg_corpus_judging::proofs::Trials::bytes_untried))]
pub fn tried(
    alloc: Global,
    checked: &Checked,
    table: &Table,
    registry: &Registry,
    bytes: &[u8],
    wanted: &[u8],
) -> Result<Trial, AllocError>
    requires fits { Fits (offer_of registry.now) checked.now.grammar }
    requires table { initial checked.now.grammar ≡ whole table.now }
    ensures { IfOk result (IsTrialOf checked.now.grammar bytes.now wanted.now) }
{
    match Text::from_bytes(alloc, bytes) {
        Ok(text) => match tried_text(alloc, checked, table, registry, text, wanted) {
            Ok(trial) => Ok(trial),
            Err(error) => Err(error),
        },
        Err(TextFault::NotUtf8) => match untried(alloc, b"P1 not UTF-8") {
            Ok(trial) => Ok(trial),
            Err(error) => Err(error),
        },
        Err(TextFault::TooLong) => match untried(alloc, b"P2 text too long") {
            Ok(trial) => Ok(trial),
            Err(error) => Err(error),
        },
        Err(TextFault::Memory) => Err(AllocError),
    }
}

/// Tries a text.
#[tactic(auto, using(pg_corpus_judging::proofs::Trials::trial_for))]
fn tried_text(
    alloc: Global,
    checked: &Checked,
    table: &Table,
    registry: &Registry,
    text: Text,
    wanted: &[u8],
) -> Result<Trial, AllocError>
    requires fits { Fits (offer_of registry.now) checked.now.grammar }
    requires table { initial checked.now.grammar ≡ whole table.now }
    ensures { IfOk result (IsTrialOfText checked.now.grammar text wanted.now) }
{
    let came = came_of(alloc, checked, table, registry, &text)?;
    drop(text);
    match trial_of(alloc, wanted, came) {
        Ok(trial) => Ok(trial),
        Err(error) => Err(error),
    }
}
