//! What a text comes to by a grammar.

ghost use Rattle.std.specs.Prelude.{◌≡◌, IfOk};
ghost use Rattle.pg_pred.specs.Offer.{offer_of};
ghost use Rattle.pg_grammar_value.specs.Fits.{Fits};
ghost use Rattle.pg_table.specs.Tables.{initial, whole};
ghost use Rattle.pg_corpus_judging.specs.Judging.{ComesTo};
ghost use Rattle.pg_corpus_trials.specs.Trials.{end_of};

use pg_corpus_judging::Came;
use pg_machine::{Answer, Success, run};
use pg_pred::Registry;
use pg_predict::Checked;
use pg_table::Table;
use pg_text::Text;
use pg_tree::Forest;
use std::alloc::{AllocError, Global};

/// What a text comes to by a checked grammar, whose initial table this is. The only error is that memory runs out.
#[tactic(auto, using(pg_table::proofs::Added::own_table, crate::proofs::Ends::comes_to))]
pub(crate) fn came_of(
    alloc: Global,
    checked: &Checked,
    table: &Table,
    registry: &Registry,
    text: &Text,
) -> Result<Came, AllocError>
    requires fits { Fits (offer_of registry.now) checked.now.grammar }
    requires table { initial checked.now.grammar ≡ whole table.now }
    ensures { IfOk result (ComesTo checked.now.grammar text.now) }
{
    match run(alloc, checked, text, table, registry) {
        Ok(answer) => Ok(came_from(answer)),
        Err(error) => Err(error),
    }
}

/// What an answer says of the text.
pub(crate) fn came_from(answer: Answer) -> Came
    ensures { result ≡ end_of answer }
{
    let Answer { error, success, .. } = answer;
    match success {
        Some(success) => {
            drop(error);
            Came::Trees(trees_of(success))
        }
        None => Came::Error(error),
    }
}

/// The trees of an ok answer.
fn trees_of(success: Success) -> Forest
    ensures { result ≡ success.forest }
{
    let Success { forest, .. } = success;
    forest
}
