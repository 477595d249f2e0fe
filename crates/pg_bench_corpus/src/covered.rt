//! What the text of a passing case takes of a grammar.

ghost use Rattle.std.specs.Prelude.{◌≡◌};
ghost use Rattle.pg_pred.specs.Offer.{offer_of};
ghost use Rattle.pg_grammar_value.specs.Fits.{Fits};
ghost use Rattle.pg_table.specs.Tables.{initial, whole};
ghost use Rattle.pg_bench_corpus.specs.Tested.{IsReady};

use crate::tested::{Given, TestedGrammar};
use pg_bench_grammar::AcceptedGrammar;
use pg_machine::{Answer, run};
use pg_pred::Registry;
use pg_text::{Text, TextFault};
use pg_trail_coverage::Coverage;
use std::alloc::{AllocError, Global};

/// Notes what a text takes of an accepted grammar. Of a grammar that is probed nothing is noted. The only error is that memory runs out.
pub(crate) fn cover(
    alloc: Global,
    given: Given,
    bytes: &[u8],
    coverage: &mut Coverage,
) -> Result<(), AllocError>
    requires { IsReady (offer_of given.registry.now) given.tested.now }
{
    let Given {
        tested,
        registry,
        ..
    } = given;
    match tested {
        TestedGrammar::Accepted(accepted) => match Text::from_bytes(alloc, bytes) {
            Ok(text) => cover_parse(alloc, accepted, registry, &text, coverage),
            Err(TextFault::NotUtf8 | TextFault::TooLong) => Ok(()),
            Err(TextFault::Memory) => Err(AllocError),
        },
        TestedGrammar::Probed(_) => Ok(()),
    }
}

/// Notes what the derivation of a text takes.
#[tactic(auto, using(pg_table::proofs::Added::own_table))]
fn cover_parse(
    alloc: Global,
    accepted: &AcceptedGrammar,
    registry: &Registry,
    text: &Text,
    coverage: &mut Coverage,
) -> Result<(), AllocError>
    requires fits { Fits (offer_of registry.now) accepted.now.checked.grammar }
    requires table { initial accepted.now.checked.grammar ≡ whole accepted.now.table }
{
    let checked = accepted.checked.as_checked();
    let answer = run(alloc, checked, text, &accepted.table, registry)?;
    let Answer { success, .. } = answer;
    match success {
        Some(success) => coverage.take(alloc, checked.grammar(), &success.trail),
        None => Ok(()),
    }
}
