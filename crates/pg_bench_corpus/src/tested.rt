//! A grammar by which cases are tried.

ghost use Rattle.std.specs.Prelude.{◌≡◌, IfOk, IfErr};
ghost use Rattle.pg_pred.specs.Offer.{offer_of};
ghost use Rattle.pg_grammar_value.specs.Fits.{Fits};
ghost use Rattle.pg_grammar_value.specs.Grammar.{Grammar};
ghost use Rattle.pg_table.specs.Tables.{initial, whole};
ghost use Rattle.pg_file_making.specs.Spells.{SpellsWithinLimits};
ghost use Rattle.pg_bench_corpus.specs.Tested.{IsReady, IsTrialBy, tested_grammar};

use pg_bench_grammar::{AcceptedGrammar, BenchFault, accepted_of, placed_of};
use pg_corpus::Case;
use pg_corpus_judging::Trial;
use pg_corpus_trials::{tried, tried_by_probe};
use pg_file_making::PlacedGrammar;
use pg_grammar_value::Grammar;
use pg_pred::Registry;
use std::alloc::{AllocError, Global};

/// A grammar by which cases are tried.
#[derive(Drop)]
pub enum TestedGrammar {
    /// An accepted grammar: texts are parsed by it.
    Accepted(AcceptedGrammar),
    /// Any grammar: it is probed.
    Probed(PlacedGrammar),
}

/// A grammar by which cases are tried, with the bytes of the file that spells it, and a registry that has what it names in it (ours).
#[derive(Clone, Copy)]
pub struct Given<'a> {
    pub tested: &'a TestedGrammar,
    pub bytes: &'a [u8],
    pub registry: &'a Registry,
}

/// The grammar that the bytes of a file spell, to be probed or to parse by (ours). The registry has the predicates and builders that the file may name. Fails
/// with a fault of the file, with the findings of a grammar that is to parse and isn't accepted, or where memory runs out.
pub fn tested_of(
    alloc: Global,
    bytes: &[u8],
    registry: &Registry,
    is_probed: bool,
) -> Result<TestedGrammar, BenchFault>
    ensures ready { IfOk result (IsReady (offer_of registry.now)) }
    ensures spelled { IfOk result (λ tested. SpellsWithinLimits (offer_of registry.now) bytes.now (tested_grammar tested)) }
{
    if is_probed {
        probed_of(alloc, bytes, registry)
    } else {
        parsed_by(alloc, bytes, registry)
    }
}

/// A grammar to be probed.
fn probed_of(alloc: Global, bytes: &[u8], registry: &Registry) -> Result<TestedGrammar, BenchFault>
    ensures ready { IfOk result (IsReady (offer_of registry.now)) }
    ensures spelled { IfOk result (λ tested. SpellsWithinLimits (offer_of registry.now) bytes.now (tested_grammar tested)) }
{
    match placed_of(alloc, bytes, registry) {
        Ok(placed) => Ok(TestedGrammar::Probed(placed)),
        Err(fault) => Err(fault),
    }
}

/// A grammar to parse by.
fn parsed_by(alloc: Global, bytes: &[u8], registry: &Registry) -> Result<TestedGrammar, BenchFault>
    ensures ready { IfOk result (IsReady (offer_of registry.now)) }
    ensures spelled { IfOk result (λ tested. SpellsWithinLimits (offer_of registry.now) bytes.now (tested_grammar tested)) }
{
    match accepted_of(alloc, bytes, registry) {
        Ok(accepted) => Ok(TestedGrammar::Accepted(accepted)),
        Err(fault) => Err(fault),
    }
}

impl TestedGrammar {
    /// The grammar.
    pub fn grammar(&self) -> &Grammar {
        match self {
            TestedGrammar::Accepted(accepted) => accepted.checked.as_checked().grammar(),
            TestedGrammar::Probed(placed) => &placed.grammar,
        }
    }

    /// Whether it is probed.
    pub fn is_probed(&self) -> bool {
        match self {
            TestedGrammar::Accepted(_) => false,
            TestedGrammar::Probed(_) => true,
        }
    }
}

/// Tries a case. The only error is that memory runs out.
pub(crate) fn trial(
    alloc: Global,
    tested: &TestedGrammar,
    registry: &Registry,
    case: Case,
) -> Result<Trial, AllocError>
    requires { IsReady (offer_of registry.now) tested.now }
    ensures { IfOk result (IsTrialBy tested.now case.entry.text.now case.entry.wanted.now) }
{
    match tested {
        TestedGrammar::Accepted(accepted) => tried(
            alloc,
            accepted.checked.as_checked(),
            &accepted.table,
            registry,
            case.text,
            case.wanted,
        ),
        TestedGrammar::Probed(placed) => tried_by_probe(
            alloc,
            &placed.grammar,
            &placed.table,
            registry,
            case.text,
            case.wanted,
        ),
    }
}
