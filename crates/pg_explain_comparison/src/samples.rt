//! Samples of a grammar: short texts that it derives, each with a trail and a forest.

ghost use Rattle.std.specs.Prelude.{All, IfOk, IfSome};
ghost use Rattle.pg_pred.specs.Offer.{offer_of};
ghost use Rattle.pg_table.specs.Tables.{ComesFrom};
ghost use Rattle.pg_grammar_value.specs.Fits.{Fits};
ghost use Rattle.pg_explain_comparison.specs.Kept.{IsSample};

use crate::drafted::{Drafted, drafted_of};
use crate::reading::as_read;
use pg_explain_samples::Basis;
use pg_grammar_value::{Grammar, Trail};
use pg_pred::Registry;
use pg_sets::Sets;
use pg_table::Table;
use pg_text::{Text, TextFault, utf8};
use pg_trail_replay::{ReplayFault, replay};
use pg_tree::Forest;
use std::alloc::{AllocError, Global};

/// A text that a grammar derives.
#[derive(Drop)]
pub struct Sample {
    /// The text.
    pub text: Text,
    /// The choices made in its derivation.
    pub trail: Trail,
    /// Its trees. If the run reads the text, they are those of the run.
    pub forest: Forest,
}

/// Texts that the grammar with these sets derives under the table: at most `most` of them, each of at most 24 characters, the shortest first (ours). They go
/// through every alternative, with no, one and two rounds, with each use of a rule empty and nonempty, and with each operator of the table; some are varied.
/// The caller ensures that the registry fits and that the table comes from the grammar. Fails where memory runs out.
pub fn samples_of(
    alloc: Global,
    grammar: &Grammar,
    sets: &Sets,
    table: &Table,
    registry: &Registry,
    most: usize,
) -> Result<Vec<Sample>, AllocError>
    requires fits { Fits (offer_of registry.now) grammar.now }
    requires table { ComesFrom grammar.now table.now }
    ensures { IfOk result (λ samples. All (IsSample grammar.now table.now) samples.items) }
{
    let drafted = drafts_of(alloc, grammar, sets, table, most)?;
    let mut samples = Vec::new(alloc);
    for draft in drafted {
        if let Some(sample) = sample_of(alloc, grammar, table, registry, draft)? {
            samples.push(sample)?;
        }
    }
    Ok(samples)
}

/// Drafts of such texts.
fn drafts_of(
    alloc: Global,
    grammar: &Grammar,
    sets: &Sets,
    table: &Table,
    most: usize,
) -> Result<Vec<Drafted>, AllocError> {
    let basis = Basis::of(alloc, grammar, sets)?;
    drafted_of(alloc, &basis, table, most)
}

/// The sample of this draft, if the grammar derives it.
fn sample_of(
    alloc: Global,
    grammar: &Grammar,
    table: &Table,
    registry: &Registry,
    drafted: Drafted,
) -> Result<Option<Sample>, AllocError>
    requires fits { Fits (offer_of registry.now) grammar.now }
    requires table { ComesFrom grammar.now table.now }
    ensures { IfOk result (λ found. IfSome found (IsSample grammar.now table.now)) }
{
    let Drafted { text, trail } = drafted;
    match text_of(alloc, &text)? {
        Some(text) => sample_read(alloc, grammar, table, registry, text, trail),
        None => Ok(None),
    }
}

/// The sample with this text, if the grammar derives it along this trail. Its trees are those of a run, if a run reads the text.
fn sample_read(
    alloc: Global,
    grammar: &Grammar,
    table: &Table,
    registry: &Registry,
    text: Text,
    trail: Trail,
) -> Result<Option<Sample>, AllocError>
    requires fits { Fits (offer_of registry.now) grammar.now }
    requires table { ComesFrom grammar.now table.now }
    ensures { IfOk result (λ found. IfSome found (IsSample grammar.now table.now)) }
{
    match sample_along(alloc, grammar, table, text, trail)? {
        Some(sample) => Ok(Some(as_read(alloc, grammar, table, registry, sample)?)),
        None => Ok(None),
    }
}

/// The sample with this text and this trail, if the grammar derives the text along it.
fn sample_along(
    alloc: Global,
    grammar: &Grammar,
    table: &Table,
    text: Text,
    trail: Trail,
) -> Result<Option<Sample>, AllocError>
    requires { ComesFrom grammar.now table.now }
    ensures { IfOk result (λ found. IfSome found (IsSample grammar.now table.now)) }
{
    match replay(alloc, grammar, &text, table, &trail) {
        Ok(forest) => Ok(Some(Sample {
            text,
            trail,
            forest,
        })),
        Err(ReplayFault::Stopped(_)) => Ok(None),
        Err(ReplayFault::Memory) => Err(AllocError),
    }
}

/// The text of these characters, if it isn't too long.
fn text_of(alloc: Global, characters: &[char]) -> Result<Option<Text>, AllocError> {
    let spelled = utf8(alloc, characters)?;
    match Text::from_bytes(alloc, spelled.as_bytes()) {
        Ok(text) => Ok(Some(text)),
        Err(TextFault::NotUtf8 | TextFault::TooLong) => Ok(None),
        Err(TextFault::Memory) => Err(AllocError),
    }
}
