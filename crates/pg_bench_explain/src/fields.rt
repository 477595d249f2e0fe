//! Explanations of findings, as fields of their lines of JSON.

ghost use Rattle.std.specs.Prelude.{◌≡◌};
ghost use Rattle.pg_pred.specs.Offer.{offer_of};
ghost use Rattle.pg_table.specs.Tables.{initial, whole, ComesFrom};
ghost use Rattle.pg_grammar_value.specs.Fits.{Fits};
ghost use Rattle.pg_bench_grammar.specs.Loading.{judged_grammar};

use crate::answers::answer_words;
use crate::cures::cures_of;
use crate::edits::push_change;
use crate::explain::lent;
use crate::explained_page::{MOST, TEXTS, Texts};
use crate::refused_file::RefusedFile;
use crate::witnesses::{keep_derived, seeker_of};
use pg_bench_grammar::{Judgement, LoadedFile};
use pg_explain::{Explanation, Section, explain_findings};
use pg_explain_cures::Cure;
use pg_explain_json::{Spots, ToldFinding, push_witness, push_words};
use pg_explain_witness::{Bound, Seeker, Witness};
use pg_pred::Registry;
use pg_predict::Refused;
use pg_predict_lines::is_of_no_text;
use pg_text::utf8;
use std::alloc::{AllocError, Global};

/// What `explain_loaded` says about the findings of a loaded file, as fields of their lines of JSON (ours): for each of the first 20 causes a change that
/// cures it, a text that shows it and what it is in words, in the order of findings. Empty for an accepted grammar. The caller ensures the same as for
/// `explain_loaded`. Fails where memory runs out.
pub fn told_findings(
    alloc: Global,
    loaded: &LoadedFile,
    registry: &Registry,
) -> Result<Vec<ToldFinding>, AllocError>
    requires fits { Fits (offer_of registry.now) (judged_grammar loaded.now.judgement) }
    requires table { initial (judged_grammar loaded.now.judgement) ≡ whole loaded.now.table }
{
    match &loaded.judgement {
        Judgement::Accepted(_) => Ok(Vec::new(alloc)),
        Judgement::Refused(refused) => told_refused(alloc, refused, loaded, registry),
    }
}

/// The explanations of the findings of a refused grammar.
fn told_refused<'f>(
    alloc: Global,
    refused: &'f Refused,
    loaded: &'f LoadedFile<'f>,
    registry: &'f Registry,
) -> Result<Vec<ToldFinding>, AllocError>
    requires fits { Fits (offer_of registry.now) refused.now.grammar }
    requires table { initial refused.now.grammar ≡ whole loaded.now.table }
{
    let sections = sections_of(alloc, refused, loaded)?;
    let file = RefusedFile {
        loaded,
        refused,
        registry,
    };
    let told = told_sections(alloc, &file, &sections);
    drop(sections);
    told
}

/// The sections on a grammar.
fn sections_of(
    alloc: Global,
    refused: &Refused,
    loaded: &LoadedFile,
) -> Result<Vec<Section>, AllocError> {
    let nodes = refused.grammar().nodes().len();
    let told = explain_findings(alloc, refused, &lent(loaded), 0, nodes, MOST)?;
    let Explanation { sections, .. } = told;
    Ok(sections)
}

/// The explanations of the findings in these sections.
fn told_sections(
    alloc: Global,
    file: &RefusedFile<'_>,
    sections: &[Section],
) -> Result<Vec<ToldFinding>, AllocError>
    requires fits { Fits (offer_of file.now.registry.now) file.now.refused.now.grammar }
    requires table { initial file.now.refused.now.grammar ≡ whole file.now.loaded.now.table }
{
    let texts = witnesses_of(alloc, file, sections)?;
    let told = told_with_texts(alloc, file, sections, &texts);
    drop(texts);
    told
}

/// As `told_sections`, given the texts. Those that the grammar derives are used to judge changes.
fn told_with_texts(
    alloc: Global,
    file: &RefusedFile<'_>,
    sections: &[Section],
    texts: &Texts,
) -> Result<Vec<ToldFinding>, AllocError>
    requires fits { Fits (offer_of file.now.registry.now) file.now.refused.now.grammar }
    requires table { initial file.now.refused.now.grammar ≡ whole file.now.loaded.now.table }
{
    let cures = cures_of(alloc, file, sections, &texts.derived)?;
    let told = all_told(alloc, file.loaded, sections, &cures, &texts.words);
    drop(cures);
    told
}

/// For each section the field of a text that shows its finding, and the texts that the grammar derives.
pub(crate) fn witnesses_of(
    alloc: Global,
    file: &RefusedFile<'_>,
    sections: &[Section],
) -> Result<Texts, AllocError>
    requires fits { Fits (offer_of file.now.registry.now) file.now.refused.now.grammar }
    requires table { initial file.now.refused.now.grammar ≡ whole file.now.loaded.now.table }
{
    let seeker = seeker_of(alloc, file)?;
    let witnesses = all_witnesses(alloc, &seeker, sections);
    drop(seeker);
    witnesses
}

/// As `witnesses_of`, with a seeker.
fn all_witnesses(alloc: Global, seeker: &Seeker, sections: &[Section]) -> Result<Texts, AllocError>
    requires fits { Fits (offer_of seeker.now.registry.now) seeker.now.grammar.now }
    requires table { ComesFrom seeker.now.grammar.now seeker.now.table.now }
{
    let mut texts = Texts {
        words: Vec::new(alloc),
        derived: Vec::new(alloc),
    };
    let mut bound = TEXTS;
    for section in sections {
        push_field_of(alloc, seeker, section, &mut bound, &mut texts)?;
    }
    Ok(texts)
}

/// Adds the field of a text that shows the finding of a section.
fn push_field_of(
    alloc: Global,
    seeker: &Seeker,
    section: &Section,
    bound: &mut Bound,
    texts: &mut Texts,
) -> Result<(), AllocError>
    requires fits { Fits (offer_of seeker.now.registry.now) seeker.now.grammar.now }
    requires table { ComesFrom seeker.now.grammar.now seeker.now.table.now }
{
    if is_of_no_text(&section.kind) || bound.is_used_up() {
        return push_no_text(alloc, texts);
    }
    match seeker.witness(alloc, section.node, &section.kind, bound)? {
        Some(witness) => push_shown(alloc, witness, texts),
        None => push_no_text(alloc, texts),
    }
}

/// Adds the field that says that there is no text.
fn push_no_text(alloc: Global, texts: &mut Texts) -> Result<(), AllocError> {
    let field = String::from_str(alloc, ",\"witness\":null")?;
    texts.words.push(field)?;
    Ok(())
}

/// Adds the field of this text, and keeps the text if the grammar derives it.
fn push_shown(alloc: Global, witness: Witness, texts: &mut Texts) -> Result<(), AllocError> {
    let field = shown_field(alloc, &witness)?;
    texts.words.push(field)?;
    keep_derived(witness, &mut texts.derived)
}

/// The field of this text.
fn shown_field(alloc: Global, witness: &Witness) -> Result<String, AllocError> {
    let text = utf8(alloc, witness.text.characters())?;
    let answer = answer_words(alloc, &witness.text, &witness.shown)?;
    witness_field(alloc, text.as_str(), answer.as_str())
}

/// The field of a text with this answer.
fn witness_field(alloc: Global, text: &str, answer: &str) -> Result<String, AllocError> {
    let mut field = String::new(alloc);
    push_witness(alloc, &mut field, text, answer)?;
    Ok(field)
}

/// As `told_with_texts`, given the changes and the fields of the texts.
fn all_told(
    alloc: Global,
    loaded: &LoadedFile,
    sections: &[Section],
    cures: &[Option<Cure>],
    witnesses: &[String],
) -> Result<Vec<ToldFinding>, AllocError> {
    let spots = Spots::of(alloc, loaded.characters.as_slice())?;
    let mut told = Vec::new(alloc);
    for (number, section) in sections.iter().enumerate() {
        let witness = match witnesses.get(number) {
            Some(field) => field.as_str(),
            None => "",
        };
        let fields = fields_of(alloc, loaded, &spots, section, cures.get(number), witness)?;
        told.push(ToldFinding::of(section.node, &section.kind, fields))?;
    }
    Ok(told)
}

/// The fields of a section, with the change and the field of the text for it.
fn fields_of(
    alloc: Global,
    loaded: &LoadedFile,
    spots: &Spots,
    section: &Section,
    cure: Option<&Option<Cure>>,
    witness: &str,
) -> Result<String, AllocError> {
    let mut fields = String::new(alloc);
    push_change(alloc, &mut fields, loaded, spots, cure)?;
    fields.push_str(witness)?;
    push_words(alloc, &mut fields, section.words.as_str())?;
    Ok(fields)
}
