//! Changes that cure findings, in words.

ghost use Rattle.std.specs.Prelude.{◌≡◌};
ghost use Rattle.pg_pred.specs.Offer.{offer_of};
ghost use Rattle.pg_table.specs.Tables.{initial, whole};
ghost use Rattle.pg_grammar_value.specs.Fits.{Fits};

use crate::refused_file::RefusedFile;
use pg_explain::{Section, push_quoted};
use pg_explain_comparison::{Kept, Sample, samples_of};
use pg_explain_cures::{Bound, Cure, Source, find_cure, findings};
use pg_text::{Text, characters_of};
use pg_text_excerpt::push_shown;
use std::alloc::{AllocError, Global};

/// The most texts of the grammar that are tried with each change.
const TEXTS: usize = 160;

/// The most changed files that are read, and the most characters that they have together.
const TRIALS: Bound = Bound {
    trials: 64,
    characters: 40_000,
};

/// For each section, a change that cures its finding, if one is found. The change is judged by texts of the grammar, and by these others that it derives.
pub(crate) fn cures_of(
    alloc: Global,
    file: &RefusedFile<'_>,
    sections: &[Section],
    others: &[Text],
) -> Result<Vec<Option<Cure>>, AllocError>
    requires fits { Fits (offer_of file.now.registry.now) file.now.refused.now.grammar }
    requires table { initial file.now.refused.now.grammar ≡ whole file.now.loaded.now.table }
{
    let loaded = file.loaded;
    let found = findings(alloc, file.refused, &loaded.spans)?;
    let samples = texts_of(alloc, file)?;
    let source = Source {
        text: &loaded.characters,
        syntax: &loaded.syntax,
        refused: file.refused,
        spans: &loaded.spans,
        found: &found,
        samples: &samples,
        others,
        registry: file.registry,
    };
    let mut bound = TRIALS;
    let mut cures = Vec::new(alloc);
    for section in sections {
        cures.push(find_cure(alloc, &source, section.node, &section.kind, &mut bound)?)?;
    }
    Ok(cures)
}

/// Texts of the grammar.
fn texts_of(alloc: Global, file: &RefusedFile<'_>) -> Result<Vec<Sample>, AllocError>
    requires fits { Fits (offer_of file.now.registry.now) file.now.refused.now.grammar }
    requires table { initial file.now.refused.now.grammar ≡ whole file.now.loaded.now.table }
{
    samples_of(
        alloc,
        file.refused.grammar(),
        file.refused.sets(),
        &file.loaded.table,
        file.registry,
        TEXTS,
    )
}

/// Appends the change for a section, or that its finding goes with the change for another section.
pub(crate) fn push_cure(
    alloc: Global,
    page: &mut String,
    sections: &[Section],
    cures: &[Option<Cure>],
    number: usize,
) -> Result<(), AllocError> {
    if let Some(cause) = cause_of(sections, cures, number) {
        let head = cause.head.as_str();
        let words = format!(in alloc;
            "\n  it follows from {head}; the change there removes it too\n"
        )?;
        return page.push_str(words.as_str());
    }
    match cures.get(number) {
        Some(Some(cure)) => push_help(alloc, page, cure),
        Some(None) | None => Ok(()),
    }
}

/// The section whose change also cures this one. If each change cures the other's finding, that is the first of the two sections.
fn cause_of<'s>(
    sections: &'s [Section],
    cures: &[Option<Cure>],
    number: usize,
) -> Option<&'s Section> {
    let section = sections.get(number)?;
    for (other, cause) in sections.iter().enumerate() {
        if other != number
            && takes_away(cures, other, section)
            && (other < number || !takes_away(cures, number, cause))
        {
            return Some(cause);
        }
    }
    None
}

/// Whether the change for a section cures the finding of another one.
fn takes_away(cures: &[Option<Cure>], number: usize, section: &Section) -> bool {
    match cures.get(number) {
        Some(Some(cure)) => cure.takes_away(section.node, &section.kind),
        Some(None) | None => false,
    }
}

/// Appends a change: what it is, the items as they then read, and its effects.
fn push_help(alloc: Global, page: &mut String, cure: &Cure) -> Result<(), AllocError> {
    let words = cure.change.words();
    let line = format!(in alloc; "\n  help: {words}:\n")?;
    page.push_str(line.as_str())?;
    for item in &cure.items {
        push_item(alloc, page, item.as_str())?;
    }
    push_taken_out(page, &cure.taken_out)?;
    if cure.accepted {
        page.push_str("    with this change the grammar is accepted")?;
    } else {
        page.push_str("    with this change the finding is gone")?;
    }
    push_kept(alloc, page, cure)?;
    page.push_str("\n")
}

/// Appends what becomes of the language.
fn push_kept(alloc: Global, page: &mut String, cure: &Cure) -> Result<(), AllocError> {
    let kept = &cure.kept;
    if kept.tried == 0 && cure.tree_changes {
        page.push_str("; the tree changes")?;
    }
    push_lost(alloc, page, kept)?;
    push_gained(alloc, page, kept)?;
    push_trees(alloc, page, kept)
}

/// Appends the text that is no longer derived, or the text for which that isn't known.
fn push_lost(alloc: Global, page: &mut String, kept: &Kept) -> Result<(), AllocError> {
    match (&kept.lost, &kept.unknown) {
        (Some(text), _) => push_of(alloc, page, text, " isn't derived any more"),
        (None, Some(text)) => push_of(alloc, page, text, " is perhaps not derived any more"),
        (None, None) => Ok(()),
    }
}

/// Appends the text that only the changed grammar derives.
fn push_gained(alloc: Global, page: &mut String, kept: &Kept) -> Result<(), AllocError> {
    match &kept.gained {
        Some(text) => push_of(alloc, page, text, " is now derived too"),
        None => Ok(()),
    }
}

/// Appends a text, and words about it.
pub(crate) fn push_of(
    alloc: Global,
    page: &mut String,
    text: &[char],
    words: &'static str,
) -> Result<(), AllocError> {
    page.push_str("; the text ")?;
    push_quoted(alloc, page, text)?;
    page.push_str(words)
}

/// Appends how many texts are parsed to the same trees, or the text that isn't.
fn push_trees(alloc: Global, page: &mut String, kept: &Kept) -> Result<(), AllocError> {
    let same = kept.same;
    let texts = if same == 1 { "text" } else { "texts" };
    let are = if same == 1 { "is" } else { "are" };
    if let Some(text) = &kept.other {
        return push_of(alloc, page, text, " gets a different tree than before");
    }
    if same == 0 {
        return Ok(());
    }
    let words = format!(in alloc;
        "; {same} {texts} of the old grammar {are} parsed to the same trees"
    )?;
    page.push_str(words.as_str())
}

/// Appends the lines of an item.
fn push_item(alloc: Global, page: &mut String, item: &str) -> Result<(), AllocError> {
    for line in item.lines() {
        page.push_str("      ")?;
        push_line(alloc, page, line)?;
        page.push_str("\n")?;
    }
    Ok(())
}

/// Appends a line as an excerpt shows it, so that no control character of the file reaches a terminal.
fn push_line(alloc: Global, page: &mut String, line: &str) -> Result<(), AllocError> {
    let characters = characters_of(alloc, line)?;
    for c in characters.as_slice() {
        push_shown(page, *c)?;
    }
    Ok(())
}

/// Appends which rules are removed, if any are.
fn push_taken_out(page: &mut String, rules: &[String]) -> Result<(), AllocError> {
    let mut joint = "    these rules are no longer used and are removed: ";
    for rule in rules {
        page.push_str(joint)?;
        page.push_str(rule.as_str())?;
        joint = ", ";
    }
    if rules.is_empty() {
        return Ok(());
    }
    page.push_str("\n")
}
