//! Whether a change is a cure. The changed file is read and checked.
//!
//! The change is a cure if the changed grammar is accepted. It is also one if the finding is gone and each finding that is left was at the same form of the
//! same rule before. Texts show what becomes of the language.

ghost use Rattle.pg_pred.specs.Offer.{offer_of};
ghost use Rattle.pg_grammar_value.specs.Fits.{Fits};

use crate::counting::{Findings, has_no_more};
use crate::finding::{Found, findings};
use crate::source::Source;
use pg_explain_comparison::{Kept, Parsed, kept_of};
use pg_explain_drafts::Changed;
use pg_file::{FileError, read_placed};
use pg_file_items::Span;
use pg_file_making::PlacedGrammar;
use pg_grammar_value::Grammar;
use pg_predict::{Broken, CheckFault, Checked, Refused, check};
use pg_sets::Sets;
use pg_table::{InitialFault, Table};
use pg_text::utf8;
use std::alloc::{AllocError, Global};

/// The effects of a cure.
#[derive(Drop)]
pub(crate) struct Judged {
    /// Whether the changed grammar has no findings.
    pub(crate) accepted: bool,
    /// The findings that are gone.
    pub(crate) gone: Vec<Broken>,
    /// What becomes of the language.
    pub(crate) kept: Kept,
}

/// The effects of a change, if it cures this finding.
pub(crate) fn judge(
    alloc: Global,
    source: &Source,
    cured: &Found,
    changed: &Changed,
) -> Result<Option<Judged>, AllocError> {
    let bytes = utf8(alloc, changed.text.as_slice())?;
    match read_placed(alloc, bytes.as_bytes(), source.registry) {
        Ok(read) => judged_grammar(alloc, read, source, cured, changed),
        Err(FileError::Fault(fault)) => {
            drop(fault);
            Ok(None)
        }
        Err(FileError::Memory) => Err(AllocError),
    }
}

/// The effects, from a check of the changed grammar.
fn judged_grammar(
    alloc: Global,
    read: PlacedGrammar,
    source: &Source,
    cured: &Found,
    changed: &Changed,
) -> Result<Option<Judged>, AllocError>
    requires { Fits (offer_of source.now.registry.now) read.grammar }
{
    let PlacedGrammar { grammar, spans, .. } = read;
    match check(alloc, grammar) {
        Ok(checked) => judged_accepted(alloc, source, &checked),
        Err(CheckFault::Refused(refused)) => {
            judged_refused(alloc, source, &refused, &spans, cured, changed)
        }
        Err(CheckFault::Memory(grammar)) => {
            drop(grammar);
            Err(AllocError)
        }
    }
}

/// The effects of a change whose grammar is accepted.
fn judged_accepted(
    alloc: Global,
    source: &Source,
    checked: &Checked,
) -> Result<Option<Judged>, AllocError>
    requires { Fits (offer_of source.now.registry.now) checked.now.grammar }
{
    let gone = missing(alloc, source.found, &[])?;
    let kept = kept_in(alloc, source, checked.grammar(), checked.sets(), true)?;
    Ok(judged_by(true, gone, kept))
}

/// The effects of a change whose grammar is refused. Compares its findings with those before.
fn judged_refused(
    alloc: Global,
    source: &Source,
    refused: &Refused,
    spans: &[Span],
    cured: &Found,
    changed: &Changed,
) -> Result<Option<Judged>, AllocError>
    requires { Fits (offer_of source.now.registry.now) refused.now.grammar }
{
    let Some(gone) = gone_in(alloc, source, refused, spans, cured, changed)? else {
        return Ok(None);
    };
    let kept = kept_in(alloc, source, refused.grammar(), refused.sets(), false)?;
    Ok(judged_by(false, gone, kept))
}

/// The effects, if it is known what becomes of the language.
fn judged_by(accepted: bool, gone: Vec<Broken>, kept: Option<Kept>) -> Option<Judged> {
    match kept {
        Some(kept) => Some(Judged {
            accepted,
            gone,
            kept,
        }),
        None => None,
    }
}

/// What becomes of the language; `None` if the changed grammar has no table.
fn kept_in(
    alloc: Global,
    source: &Source,
    grammar: &Grammar,
    sets: &Sets,
    is_accepted: bool,
) -> Result<Option<Kept>, AllocError>
    requires { Fits (offer_of source.now.registry.now) grammar.now }
{
    let table = match Table::of(alloc, grammar) {
        Ok(table) => table,
        Err(InitialFault::NotAdmitted { .. }) => return Ok(None),
        Err(InitialFault::Memory) => return Err(AllocError),
    };
    let changed = Parsed {
        grammar,
        sets,
        table: &table,
        registry: source.registry,
        is_accepted,
    };
    let before = source.refused.grammar();
    let kept = kept_of(alloc, before, source.samples, source.others, changed)?;
    Ok(Some(kept))
}

/// The findings that are gone, if the one to be cured is gone and there is no new one.
fn gone_in(
    alloc: Global,
    source: &Source,
    refused: &Refused,
    spans: &[Span],
    cured: &Found,
    changed: &Changed,
) -> Result<Option<Vec<Broken>>, AllocError> {
    let after = findings(alloc, refused, spans)?;
    let Some(left) = left_of(alloc, source.found, &after, changed)? else {
        return Ok(None);
    };
    if cured.is_among(&left) || !is_no_more(alloc, source, refused, &after, &left)? {
        return Ok(None);
    }
    Ok(Some(missing(alloc, source.found, &left)?))
}

/// Whether no rule has more findings than before, and none has a copy of one that is left. Those left stand at the forms where they stood before, so of a form
/// that was copied there is one.
fn is_no_more(
    alloc: Global,
    source: &Source,
    refused: &Refused,
    after: &[Found],
    left: &[Found],
) -> Result<bool, AllocError> {
    let after = Findings {
        grammar: refused.grammar(),
        found: after,
    };
    let before = Findings {
        grammar: source.refused.grammar(),
        found: source.found,
    };
    let left = Findings {
        grammar: refused.grammar(),
        found: left,
    };
    Ok(has_no_more(alloc, before, after)? && has_no_more(alloc, left, after)?)
}

/// The findings after a change, at the forms where they stood before. `None` if one of them wasn't there before.
fn left_of(
    alloc: Global,
    before: &[Found],
    after: &[Found],
    changed: &Changed,
) -> Result<Option<Vec<Found>>, AllocError> {
    let mut left = Vec::new(alloc);
    for found in after {
        let Some(span) = changed.back(found.span) else {
            return Ok(None);
        };
        let stood = Found {
            broken: found.broken,
            span,
        };
        if !stood.is_among(before) {
            return Ok(None);
        }
        left.push(stood)?;
    }
    Ok(Some(left))
}

/// The findings that aren't left.
fn missing(alloc: Global, before: &[Found], left: &[Found]) -> Result<Vec<Broken>, AllocError> {
    let mut gone = Vec::new(alloc);
    for found in before {
        if !found.is_among(left) {
            gone.push(found.broken)?;
        }
    }
    Ok(gone)
}
