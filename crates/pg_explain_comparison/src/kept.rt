//! What becomes of all samples of a grammar in a changed one, and what more the changed one derives.

ghost use Rattle.pg_pred.specs.Offer.{offer_of};
ghost use Rattle.pg_table.specs.Tables.{ComesFrom};
ghost use Rattle.pg_grammar_value.specs.Fits.{Fits};

use crate::apart::{Apart, find_apart};
use crate::ends::{Derived, derivable};
use crate::fate::{Fate, fate_of, unread};
use crate::reading::read;
use crate::samples::{Sample, samples_of};
use pg_grammar_value::Grammar;
use pg_pred::Registry;
use pg_sets::Sets;
use pg_table::Table;
use pg_text::Text;
use std::alloc::{AllocError, Global};

/// The most texts of a changed grammar that are tried in the grammar before.
const MOST: usize = 48;

/// A grammar with what is needed to parse texts.
#[derive(Clone, Copy)]
pub struct Parsed<'g> {
    pub grammar: &'g Grammar,
    pub sets: &'g Sets,
    pub table: &'g Table,
    pub registry: &'g Registry,
    /// Whether the grammar has no findings.
    pub is_accepted: bool,
}

/// What becomes of a grammar's language through a change, as far as texts were tried.
#[derive(Drop)]
pub struct Kept {
    /// How many texts of the grammar were tried.
    pub tried: usize,
    /// How many of them are read with the same trees.
    pub same: usize,
    /// The first that is read with other trees.
    pub other: Option<Vec<char>>,
    /// The first that is no longer derived.
    pub lost: Option<Vec<char>>,
    /// The first for which it isn't known whether it is derived.
    pub unknown: Option<Vec<char>>,
    /// The first text that only the changed grammar derives.
    pub gained: Option<Vec<char>>,
}

impl Kept {
    /// How well the language is kept. 0, the best, is with the same trees; then come other trees, an unknown text, a gained text and a lost text.
    pub fn rank(&self) -> usize {
        if self.lost.is_some() {
            4
        } else if self.gained.is_some() {
            3
        } else if self.unknown.is_some() {
            2
        } else if self.other.is_some() {
            1
        } else {
            0
        }
    }
}

/// What becomes of these samples of a grammar in a changed one, and of other texts that it derives, whose trees aren't compared. Also a text that only the
/// changed one derives, if one is found (ours). The caller ensures that the registry fits the changed grammar and that the table comes from it. Fails where
/// memory runs out.
pub fn kept_of(
    alloc: Global,
    before: &Grammar,
    samples: &[Sample],
    others: &[Text],
    changed: Parsed<'_>,
) -> Result<Kept, AllocError>
    requires fits { Fits (offer_of changed.registry.now) changed.grammar.now }
    requires table { ComesFrom changed.grammar.now changed.table.now }
{
    let mut kept = Kept {
        tried: samples.len(),
        same: 0,
        other: None,
        lost: None,
        unknown: None,
        gained: None,
    };
    for text in others {
        judge_text(alloc, changed, text, &mut kept)?;
    }
    for sample in samples {
        judge(alloc, changed, sample, &mut kept)?;
    }
    kept.gained = gained(alloc, before, changed)?;
    judge_short(alloc, before, changed.grammar, &mut kept)?;
    Ok(kept)
}

/// Adds what all short texts show, unless a sample was lost.
fn judge_short(
    alloc: Global,
    before: &Grammar,
    changed: &Grammar,
    kept: &mut Kept,
) -> Result<(), AllocError> {
    if kept.lost.is_some() {
        return Ok(());
    }
    let Apart { lost, gained } = find_apart(alloc, before, changed)?;
    kept.lost = lost;
    if kept.gained.is_none() {
        kept.gained = gained;
    }
    Ok(())
}

/// Records what becomes of a sample.
fn judge(
    alloc: Global,
    changed: Parsed<'_>,
    sample: &Sample,
    kept: &mut Kept,
) -> Result<(), AllocError>
    requires { Fits (offer_of changed.registry.now) changed.grammar.now }
{
    let fate = fate_of(
        alloc,
        changed.grammar,
        changed.table,
        changed.registry,
        changed.is_accepted,
        sample,
    )?;
    match fate {
        Fate::SameTrees => {
            kept.same = kept.same.saturating_add(1);
            Ok(())
        }
        Fate::OtherTrees => note(alloc, &sample.text, &mut kept.other),
        Fate::Unread => Ok(()),
        Fate::Lost => note(alloc, &sample.text, &mut kept.lost),
        Fate::Unknown => note(alloc, &sample.text, &mut kept.unknown),
    }
}

/// Records what becomes of a text, without comparing trees.
fn judge_text(
    alloc: Global,
    changed: Parsed<'_>,
    text: &Text,
    kept: &mut Kept,
) -> Result<(), AllocError>
    requires { Fits (offer_of changed.registry.now) changed.grammar.now }
{
    if is_read(alloc, changed, text)? {
        return Ok(());
    }
    match unread(alloc, changed.grammar, changed.is_accepted, text)? {
        Fate::SameTrees | Fate::OtherTrees | Fate::Unread => Ok(()),
        Fate::Lost => note(alloc, text, &mut kept.lost),
        Fate::Unknown => note(alloc, text, &mut kept.unknown),
    }
}

/// Whether a run reads the whole text.
fn is_read(alloc: Global, changed: Parsed<'_>, text: &Text) -> Result<bool, AllocError>
    requires { Fits (offer_of changed.registry.now) changed.grammar.now }
{
    let found = read(
        alloc,
        changed.grammar,
        changed.table,
        changed.registry,
        text,
    )?;
    Ok(found.is_some())
}

/// Keeps a text, unless one is kept.
fn note(alloc: Global, text: &Text, noted: &mut Option<Vec<char>>) -> Result<(), AllocError> {
    if noted.is_none() {
        *noted = Some(Vec::from_slice(alloc, text.characters())?);
    }
    Ok(())
}

/// A text that the changed grammar derives and the one before doesn't, if one is found.
fn gained(
    alloc: Global,
    before: &Grammar,
    changed: Parsed<'_>,
) -> Result<Option<Vec<char>>, AllocError>
    requires fits { Fits (offer_of changed.registry.now) changed.grammar.now }
    requires table { ComesFrom changed.grammar.now changed.table.now }
{
    let Parsed {
        grammar,
        sets,
        table,
        registry,
        ..
    } = changed;
    let samples = samples_of(alloc, grammar, sets, table, registry, MOST)?;
    for sample in &samples {
        if derivable(alloc, before, sample.text.characters())? == Derived::No {
            return Ok(Some(Vec::from_slice(alloc, sample.text.characters())?));
        }
    }
    Ok(None)
}
