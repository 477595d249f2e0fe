//! Changes that cure findings at a range of a file, each as a single edit with what came of trying it.

ghost use Rattle.std.specs.Prelude.{◌≡◌};
ghost use Rattle.pg_pred.specs.Offer.{offer_of};
ghost use Rattle.pg_table.specs.Tables.{initial, whole};
ghost use Rattle.pg_grammar_value.specs.Fits.{Fits};
ghost use Rattle.pg_bench_grammar.specs.Loading.{judged_grammar};

use crate::cures::cures_of;
use crate::edits::{Edit, edit_of, said_of};
use crate::explain::lent;
use crate::explained_page::{MOST, Texts};
use crate::fields::witnesses_of;
use crate::refused_file::RefusedFile;
use pg_bench_grammar::{Judgement, LoadedFile};
use pg_explain::{Explanation, Section, explain_findings};
use pg_explain_cures::Cure;
use pg_file_items::Span;
use pg_pred::Registry;
use pg_predict::Refused;
use std::alloc::{AllocError, Global};

/// A change of a file that cures a finding, and what came of trying it.
#[derive(Drop)]
pub struct TriedChange {
    /// The characters that are replaced, and what replaces them.
    pub replaced: Span,
    pub text: String,
    /// What the change does, and what comes of it.
    pub words: String,
    /// Whether trees stay the same, as far as texts were tried.
    pub keeps_trees: bool,
}

/// Changes that cure the findings at forms of which a character, or an end, is in this range of the file (ours): those that `explain_loaded` has for the first
/// 20 causes there, in its order, each change once. Empty for an accepted grammar. The caller ensures the same as for `explain_loaded`. Fails where memory
/// runs out.
pub fn tried_changes(
    alloc: Global,
    loaded: &LoadedFile,
    registry: &Registry,
    range: Span,
) -> Result<Vec<TriedChange>, AllocError>
    requires fits { Fits (offer_of registry.now) (judged_grammar loaded.now.judgement) }
    requires table { initial (judged_grammar loaded.now.judgement) ≡ whole loaded.now.table }
{
    match &loaded.judgement {
        Judgement::Accepted(_) => Ok(Vec::new(alloc)),
        Judgement::Refused(refused) => tried_refused(alloc, refused, loaded, registry, range),
    }
}

/// As `tried_changes`, for a refused grammar.
fn tried_refused<'f>(
    alloc: Global,
    refused: &'f Refused,
    loaded: &'f LoadedFile<'f>,
    registry: &'f Registry,
    range: Span,
) -> Result<Vec<TriedChange>, AllocError>
    requires fits { Fits (offer_of registry.now) refused.now.grammar }
    requires table { initial refused.now.grammar ≡ whole loaded.now.table }
{
    let sections = sections_at(alloc, refused, loaded, range)?;
    let file = RefusedFile {
        loaded,
        refused,
        registry,
    };
    let tried = tried_sections(alloc, &file, &sections);
    drop(sections);
    tried
}

/// The sections on findings in a range.
fn sections_at(
    alloc: Global,
    refused: &Refused,
    loaded: &LoadedFile,
    range: Span,
) -> Result<Vec<Section>, AllocError> {
    let spans = loaded.spans.as_slice();
    let from = spans.iter().take_while(|span| !meets(span, range)).count();
    let behind = spans
        .iter()
        .rev()
        .take_while(|span| !meets(span, range))
        .count();
    let to = spans.len().saturating_sub(behind);
    let told = explain_findings(alloc, refused, &lent(loaded), from, to, MOST)?;
    let Explanation { sections, .. } = told;
    sections_in(alloc, spans, sections, range)
}

/// Those of the sections that are on findings in a range.
fn sections_in(
    alloc: Global,
    spans: &[Span],
    sections: Vec<Section>,
    range: Span,
) -> Result<Vec<Section>, AllocError> {
    let mut kept = Vec::new(alloc);
    for section in sections {
        if is_met(spans, &section, range) {
            kept.push(section)?;
        }
    }
    Ok(kept)
}

/// Whether a section is on a finding in a range.
fn is_met(spans: &[Span], section: &Section, range: Span) -> bool {
    match spans.get(section.node.index()) {
        Some(span) => meets(span, range),
        None => false,
    }
}

/// Whether characters share one with a range, or one ends where the other begins.
fn meets(span: &Span, range: Span) -> bool {
    span.first <= range.after && range.first <= span.after
}

/// The changes that cure the findings in these sections.
fn tried_sections(
    alloc: Global,
    file: &RefusedFile<'_>,
    sections: &[Section],
) -> Result<Vec<TriedChange>, AllocError>
    requires fits { Fits (offer_of file.now.registry.now) file.now.refused.now.grammar }
    requires table { initial file.now.refused.now.grammar ≡ whole file.now.loaded.now.table }
{
    if sections.is_empty() {
        return Ok(Vec::new(alloc));
    }
    let texts = witnesses_of(alloc, file, sections)?;
    let tried = tried_with_texts(alloc, file, sections, &texts);
    drop(texts);
    tried
}

/// As `tried_sections`, given texts that the grammar derives, by which changes are judged.
fn tried_with_texts(
    alloc: Global,
    file: &RefusedFile<'_>,
    sections: &[Section],
    texts: &Texts,
) -> Result<Vec<TriedChange>, AllocError>
    requires fits { Fits (offer_of file.now.registry.now) file.now.refused.now.grammar }
    requires table { initial file.now.refused.now.grammar ≡ whole file.now.loaded.now.table }
{
    let cures = cures_of(alloc, file, sections, &texts.derived)?;
    let tried = all_tried(alloc, file.loaded, &cures);
    drop(cures);
    tried
}

/// The changes that were found.
fn all_tried(
    alloc: Global,
    loaded: &LoadedFile,
    cures: &[Option<Cure>],
) -> Result<Vec<TriedChange>, AllocError> {
    let mut tried = Vec::new(alloc);
    for cure in cures {
        if let Some(cure) = cure {
            push_tried(alloc, &mut tried, loaded, cure)?;
        }
    }
    Ok(tried)
}

/// Appends a change, unless it replaces nothing or is there already.
fn push_tried(
    alloc: Global,
    tried: &mut Vec<TriedChange>,
    loaded: &LoadedFile,
    cure: &Cure,
) -> Result<(), AllocError> {
    let edit = edit_of(alloc, loaded, cure)?;
    if !edit.is_begun || is_there(tried.as_slice(), &edit) {
        return Ok(());
    }
    let change = tried_change(alloc, edit, cure)?;
    tried.push(change)?;
    Ok(())
}

/// Whether a change is there already.
fn is_there(tried: &[TriedChange], edit: &Edit) -> bool {
    tried.iter().any(|one| one.replaced == edit.span && one.text.as_str() == edit.text.as_str())
}

/// The change that an edit is.
fn tried_change(alloc: Global, edit: Edit<'_>, cure: &Cure) -> Result<TriedChange, AllocError> {
    let words = said_of(alloc, cure)?;
    let Edit { span, text, .. } = edit;
    Ok(TriedChange {
        replaced: span,
        text,
        words,
        keeps_trees: keeps_trees(cure),
    })
}

/// Whether trees stay the same: no text says otherwise, and a change that may change trees was tried by texts.
fn keeps_trees(cure: &Cure) -> bool {
    cure.kept.rank() == 0 && (cure.kept.same > 0 || !cure.tree_changes)
}
