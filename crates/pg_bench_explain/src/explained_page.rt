//! The page that explains what is wrong with a grammar.

ghost use Rattle.std.specs.Prelude.{◌≡◌};
ghost use Rattle.pg_pred.specs.Offer.{offer_of};
ghost use Rattle.pg_table.specs.Tables.{initial, whole, ComesFrom};
ghost use Rattle.pg_grammar_value.specs.Fits.{Fits};

use crate::asked::Nodes;
use crate::cures::{cures_of, push_cure};
use crate::explain::lent;
use crate::refused_file::RefusedFile;
use crate::witnesses::{push_witness, seeker_of};
use pg_bench_grammar::LoadedFile;
use pg_explain::{Explanation, Section, explain_findings};
use pg_explain_cures::Cure;
use pg_explain_witness::{Bound, Seeker};
use pg_pred::Registry;
use pg_predict::Refused;
use pg_text::Text;
use std::alloc::{AllocError, Global};

/// The most causes of findings that are explained.
pub(crate) const MOST: usize = 20;

/// How many texts are tried, and how many steps they may take together.
pub(crate) const TEXTS: Bound = Bound {
    candidates: 400,
    steps: 200_000,
};

/// The page on a grammar's findings at some of its nodes: sections with an empty line between them, each with a text that shows the finding and a change that
/// cures it, if these are found, and then how many more findings there are.
pub(crate) fn page_of<'f>(
    alloc: Global,
    refused: &'f Refused,
    loaded: &'f LoadedFile<'f>,
    nodes: Nodes,
    registry: &'f Registry,
) -> Result<String, AllocError>
    requires fits { Fits (offer_of registry.now) refused.now.grammar }
    requires table { initial refused.now.grammar ≡ whole loaded.now.table }
{
    let told = explain_findings(alloc, refused, &lent(loaded), nodes.from, nodes.to, MOST)?;
    let Explanation { sections, untold } = told;
    let file = RefusedFile {
        loaded,
        refused,
        registry,
    };
    let mut page = String::new(alloc);
    push_sections(alloc, &mut page, &file, &sections)?;
    push_untold(alloc, &mut page, untold)?;
    if page.is_empty() {
        page.push_str("there are no findings there\n")?;
    }
    Ok(page)
}

/// Texts that show the findings of sections.
#[derive(Drop)]
pub(crate) struct Texts {
    /// For each section, the words about its text.
    pub(crate) words: Vec<String>,
    /// The texts that the grammar derives.
    pub(crate) derived: Vec<Text>,
}

/// Appends the sections.
fn push_sections(
    alloc: Global,
    page: &mut String,
    file: &RefusedFile<'_>,
    sections: &[Section],
) -> Result<(), AllocError>
    requires fits { Fits (offer_of file.now.registry.now) file.now.refused.now.grammar }
    requires table { initial file.now.refused.now.grammar ≡ whole file.now.loaded.now.table }
{
    let texts = texts_of(alloc, file, sections)?;
    let pushed = push_with_texts(alloc, page, file, sections, &texts);
    drop(texts);
    pushed
}

/// Appends the sections, given their texts.
fn push_with_texts(
    alloc: Global,
    page: &mut String,
    file: &RefusedFile<'_>,
    sections: &[Section],
    texts: &Texts,
) -> Result<(), AllocError>
    requires fits { Fits (offer_of file.now.registry.now) file.now.refused.now.grammar }
    requires table { initial file.now.refused.now.grammar ≡ whole file.now.loaded.now.table }
{
    let cures = cures_of(alloc, file, sections, &texts.derived)?;
    let pushed = push_all(alloc, page, sections, &texts.words, &cures);
    drop(cures);
    pushed
}

/// Appends the sections, given the words about their texts and their changes.
fn push_all(
    alloc: Global,
    page: &mut String,
    sections: &[Section],
    words: &[String],
    cures: &[Option<Cure>],
) -> Result<(), AllocError> {
    for (number, section) in sections.iter().enumerate() {
        push_text(page, section, number)?;
        if let Some(words) = words.get(number) {
            page.push_str(words.as_str())?;
        }
        push_cure(alloc, page, sections, cures, number)?;
        push_recipe(alloc, page, section)?;
    }
    Ok(())
}

/// Texts that show the findings of the sections.
fn texts_of(
    alloc: Global,
    file: &RefusedFile<'_>,
    sections: &[Section],
) -> Result<Texts, AllocError>
    requires fits { Fits (offer_of file.now.registry.now) file.now.refused.now.grammar }
    requires table { initial file.now.refused.now.grammar ≡ whole file.now.loaded.now.table }
{
    let seeker = seeker_of(alloc, file)?;
    let texts = texts_found(alloc, &seeker, sections);
    drop(seeker);
    texts
}

/// As `texts_of`, with a seeker.
fn texts_found(alloc: Global, seeker: &Seeker, sections: &[Section]) -> Result<Texts, AllocError>
    requires fits { Fits (offer_of seeker.now.registry.now) seeker.now.grammar.now }
    requires table { ComesFrom seeker.now.grammar.now seeker.now.table.now }
{
    let mut texts = Texts {
        words: Vec::new(alloc),
        derived: Vec::new(alloc),
    };
    let mut bound = TEXTS;
    for section in sections {
        push_words(alloc, seeker, section, &mut bound, &mut texts)?;
    }
    Ok(texts)
}

/// Adds the words about a text for a section.
fn push_words(
    alloc: Global,
    seeker: &Seeker,
    section: &Section,
    bound: &mut Bound,
    texts: &mut Texts,
) -> Result<(), AllocError>
    requires fits { Fits (offer_of seeker.now.registry.now) seeker.now.grammar.now }
    requires table { ComesFrom seeker.now.grammar.now seeker.now.table.now }
{
    let mut words = String::new(alloc);
    push_witness(
        alloc,
        &mut words,
        seeker,
        section,
        bound,
        &mut texts.derived,
    )?;
    texts.words.push(words)?;
    Ok(())
}

/// Appends the text of a section, with an empty line before it unless it is the first.
fn push_text(page: &mut String, section: &Section, number: usize) -> Result<(), AllocError> {
    if number > 0 {
        page.push_str("\n")?;
    }
    page.push_str(section.text.as_str())
}

/// Appends where to find the recipe for a section, if there is one.
fn push_recipe(alloc: Global, page: &mut String, section: &Section) -> Result<(), AllocError> {
    let Some(recipe) = section.recipe else {
        return Ok(());
    };
    let heading = recipe.heading();
    let code = recipe.code();
    let line = format!(in alloc; "\n  recipe: {heading} (pgw help {code})\n")?;
    page.push_str(line.as_str())
}

/// Appends how many findings weren't explained, if any weren't.
fn push_untold(alloc: Global, page: &mut String, untold: usize) -> Result<(), AllocError> {
    match untold {
        0 => Ok(()),
        1 => page.push_str("\nThere is 1 more finding; `pgw check` lists them all.\n"),
        _ => {
            let line = format!(in alloc;
                "\nThere are {untold} more findings; `pgw check` lists them all.\n"
            )?;
            page.push_str(line.as_str())
        }
    }
}
