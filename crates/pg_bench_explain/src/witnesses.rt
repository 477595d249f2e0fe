//! A text that shows a finding, in words.

ghost use Rattle.std.specs.Prelude.{◌≡◌, IfOk};
ghost use Rattle.pg_pred.specs.Offer.{offer_of};
ghost use Rattle.pg_table.specs.Tables.{initial, whole, ComesFrom};
ghost use Rattle.pg_grammar_value.specs.Fits.{Fits};

use crate::answers::lost_words;
use crate::refused_file::RefusedFile;
use pg_explain::{Section, push_quoted};
use pg_explain_witness::{Bound, Seeker, Shown, Witness};
use pg_message::{ParseError, render};
use pg_predict::ViolationKind;
use pg_predict_lines::is_of_no_text;
use pg_text::Text;
use std::alloc::{AllocError, Global};

/// What searches for texts of a refused grammar.
pub(crate) fn seeker_of<'f>(alloc: Global, file: &RefusedFile<'f>) -> Result<Seeker<'f>, AllocError>
    requires fits { Fits (offer_of file.now.registry.now) file.now.refused.now.grammar }
    requires table { initial file.now.refused.now.grammar ≡ whole file.now.loaded.now.table }
    ensures fits { IfOk result (λ seeker. Fits (offer_of seeker.registry.now) seeker.grammar.now) }
    ensures table { IfOk result (λ seeker. ComesFrom seeker.grammar.now seeker.table.now) }
{
    let refused = file.refused;
    Seeker::of(
        alloc,
        refused.grammar(),
        refused.sets(),
        &file.loaded.table,
        file.registry,
    )
}

/// Appends a text that shows the finding of a section, or that none was found. Keeps the text if the grammar derives it.
pub(crate) fn push_witness(
    alloc: Global,
    page: &mut String,
    seeker: &Seeker,
    section: &Section,
    bound: &mut Bound,
    derived: &mut Vec<Text>,
) -> Result<(), AllocError>
    requires fits { Fits (offer_of seeker.now.registry.now) seeker.now.grammar.now }
    requires table { ComesFrom seeker.now.grammar.now seeker.now.table.now }
{
    if is_of_no_text(&section.kind) {
        return Ok(());
    }
    if bound.is_used_up() {
        return page.push_str("\n  no text was sought here: the search had reached its limit\n");
    }
    let before = bound.candidates;
    match seeker.witness(alloc, section.node, &section.kind, bound)? {
        Some(witness) => {
            push_shown(alloc, page, &witness)?;
            keep_derived(witness, derived)
        }
        None => {
            let tried = before.saturating_sub(bound.candidates);
            push_none(alloc, page, &section.kind, tried, bound.is_used_up())
        }
    }
}

/// Keeps the text if the grammar derives it.
pub(crate) fn keep_derived(witness: Witness, derived: &mut Vec<Text>) -> Result<(), AllocError> {
    let Witness { text, shown, .. } = witness;
    match shown {
        Shown::Lost { .. } | Shown::LeftOver(_) | Shown::TwoReadings { .. } => {
            derived.push(text)?;
            Ok(())
        }
        Shown::EmptyRound | Shown::NoAnswer(_) => Ok(()),
    }
}

/// Appends that none of the texts tried shows the finding, and why perhaps none does.
fn push_none(
    alloc: Global,
    page: &mut String,
    kind: &ViolationKind<usize>,
    tried: usize,
    is_used_up: bool,
) -> Result<(), AllocError> {
    push_tried(alloc, page, tried)?;
    if is_used_up {
        page.push_str("; the search stopped at its limit\n")
    } else {
        page.push_str(reason(kind))
    }
}

/// Appends how many texts were tried and that none shows the finding.
fn push_tried(alloc: Global, page: &mut String, tried: usize) -> Result<(), AllocError> {
    if tried == 0 {
        return page.push_str("\n  no text was found that could show it");
    }
    if tried == 1 {
        return page.push_str("\n  one text was tried, and it doesn't show the finding");
    }
    let words = format!(in alloc; "\n  {tried} texts were tried, and none shows the finding")?;
    page.push_str(words.as_str())
}

/// Why perhaps no text shows the finding; it is put after the number of texts tried.
fn reason(kind: &ViolationKind<usize>) -> &'static str {
    match kind {
        ViolationKind::GapMeets(_) =>
            ": a gap reads as much as it can, and the check requires that nothing after it\n  can begin with a character of the gap\n",
        ViolationKind::LeftRecursion | ViolationKind::EmptyRound | ViolationKind::StepCostOver =>
            "\n",
        ViolationKind::EmptyAlternative(_)
        | ViolationKind::AlternativesMeet(_, _, _, _)
        | ViolationKind::AlternativeMeetsFollow(_, _, _)
        | ViolationKind::RoundMeetsFollow(_, _)
        | ViolationKind::EmptyOperand
        | ViolationKind::OperandMeetsOperators(_)
        | ViolationKind::FollowMeetsOperators(_) => {
            "; the check goes by what each can begin with, so perhaps no text is lost\n"
        }
    }
}

/// Appends a text and what it shows.
fn push_shown(alloc: Global, page: &mut String, witness: &Witness) -> Result<(), AllocError> {
    page.push_str("\n  the text ")?;
    push_quoted(alloc, page, witness.text.characters())?;
    match &witness.shown {
        Shown::Lost { consumed, error } => push_lost(alloc, page, *consumed, error),
        Shown::LeftOver(place) => push_left_over(alloc, page, &witness.text, *place),
        Shown::TwoReadings { apart: true } => {
            page.push_str(" can be read in two ways, with different trees\n")
        }
        Shown::TwoReadings { apart: false } => {
            page.push_str(" can be read in two ways, with the same trees\n")
        }
        Shown::EmptyRound => page.push_str(
            " shows it: the parse reaches a round that consumes nothing, where Parsec stops with an error (P6)\n",
        ),
        Shown::NoAnswer(steps) => {
            let words = format!(in alloc;
                " shows it: the parse has no answer in {steps} steps (P5)\n"
            )?;
            page.push_str(words.as_str())
        }
    }
}

/// Appends the error of a text that the grammar derives.
fn push_lost(
    alloc: Global,
    page: &mut String,
    consumed: bool,
    error: &ParseError,
) -> Result<(), AllocError> {
    let words = lost_words(alloc, consumed, error)?;
    page.push_str(" shows it: the grammar derives all of it, but the parse answers\n    ")?;
    page.push_str(words.as_str())?;
    page.push_str("\n")
}

/// Appends the messages of an error on one line.
pub(crate) fn push_messages(
    alloc: Global,
    page: &mut String,
    error: &ParseError,
) -> Result<(), AllocError> {
    let printed = render(alloc, error, "")?;
    for (number, line) in printed.lines().enumerate() {
        if number == 1 {
            page.push_str(": ")?;
        } else if number > 1 {
            page.push_str(", ")?;
        }
        if number > 0 {
            page.push_str(line)?;
        }
    }
    Ok(())
}

/// Appends what is left over of a text that the grammar derives.
fn push_left_over(
    alloc: Global,
    page: &mut String,
    text: &Text,
    place: usize,
) -> Result<(), AllocError> {
    page.push_str(" shows it: the grammar derives all of it, but the parse is ok and leaves ")?;
    let left = match text.characters().get(place..) {
        Some(left) => left,
        None => &[],
    };
    push_quoted(alloc, page, left)?;
    page.push_str(" over\n")
}
