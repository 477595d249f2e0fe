//! Texts that are refused: their errors, by a run that makes no trees.
//!
//! Where a plan says nothing of a text, the text is mostly refused, and the machine's trees would be for nobody. So the machine runs without them first. A plan
//! also says nothing of a text that declares an operator, so this is left out where a grammar has declarations.

ghost use Rattle.std.specs.Prelude.{◌≡◌, IfErr};
ghost use Rattle.pg_pred.specs.Offer.{offer_of};
ghost use Rattle.pg_grammar_value.specs.Fits.{Fits};
ghost use Rattle.pg_table.specs.Tables.{initial, whole};
ghost use Rattle.pg_bench.specs.Refusals.{IsRunRefusal};

use pg_bench_grammar::{AcceptedGrammar, BenchFault};
use pg_grammar_form::{Form, Leaf};
use pg_machine::{Answer, refusal};
use pg_pred::Registry;
use pg_predict::Checked;
use pg_table::Table;
use pg_text::Text;
use std::alloc::Global;

/// Fails with the error of a text of which the plan of the grammar said nothing, if it has one and that was looked for. Ok says nothing of the text.
pub(crate) fn unplanned_refusal(
    alloc: Global,
    accepted: &AcceptedGrammar,
    registry: &Registry,
    text: &Text,
) -> Result<(), BenchFault>
    requires fits { Fits (offer_of registry.now) accepted.now.checked.grammar }
    requires table { initial accepted.now.checked.grammar ≡ whole accepted.now.table }
    ensures { IfErr result (IsRunRefusal accepted.now.checked.grammar text.now) }
{
    let checked = accepted.checked.as_checked();
    if accepted.checked.plan().is_none() || has_declarations(checked) {
        return Ok(());
    }
    refused_text(alloc, checked, &accepted.table, registry, text)
}

/// Whether texts can declare operators.
fn has_declarations(checked: &Checked) -> bool {
    checked
        .grammar()
        .nodes()
        .iter()
        .any(|node| matches!(node, Form::Leaf(Leaf::Declare(_))))
}

/// Fails with the error of a text, if it has one. Ok says nothing of the text.
#[tactic(auto, using(crate::proofs::RefusedTexts::refused_so, pg_table::proofs::Added::own_table))]
fn refused_text(
    alloc: Global,
    checked: &Checked,
    table: &Table,
    registry: &Registry,
    text: &Text,
) -> Result<(), BenchFault>
    requires fits { Fits (offer_of registry.now) checked.now.grammar }
    requires table { initial checked.now.grammar ≡ whole table.now }
    ensures { IfErr result (IsRunRefusal checked.now.grammar text.now) }
{
    // These are called for their contracts: facts about the grammar and the text.
    let grammar = checked.grammar();
    let _nodes = grammar.nodes();
    let _characters = text.characters();
    match refusal(alloc, checked, text, table, registry) {
        Ok(Some(answer)) => Err(error_of(answer)),
        Ok(None) => Ok(()),
        Err(_) => Err(BenchFault::Memory),
    }
}

/// The fault that an answer's error is.
fn error_of(answer: Answer) -> BenchFault
    ensures { result ≡ BenchFault.ParseError answer.error }
{
    let Answer { error, .. } = answer;
    BenchFault::ParseError(error)
}
