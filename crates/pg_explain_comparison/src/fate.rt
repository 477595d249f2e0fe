//! What becomes of a text in another grammar.

ghost use Rattle.std.specs.Prelude.{◌≡◌, ◌↔◌, T, IfOk, IfSome};
ghost use Rattle.pg_pred.specs.Offer.{offer_of};
ghost use Rattle.pg_tree.specs.Json.{json};
ghost use Rattle.pg_grammar_value.specs.Fits.{Fits};
ghost use Rattle.pg_explain_comparison.specs.Kept.{IsAnsweredSo, IsFate, IsRead, IsUnread};

use crate::ends::{Derived, derivable};
use crate::reading::STEPS;
use crate::samples::Sample;
use pg_grammar_value::Grammar;
use pg_language::Reading;
use pg_machine::{Answer, Outcome, Success, probe};
use pg_pred::Registry;
use pg_table::Table;
use pg_text::Text;
use pg_tree::{Forest, Meter, write_json};
use std::alloc::{AllocError, Global};

/// What becomes of a text that the grammar before derives.
#[derive(Clone, Copy, PartialEq, Eq)]
pub enum Fate {
    /// The run reads it, with the same trees.
    SameTrees,
    /// The run reads it, with other trees.
    OtherTrees,
    /// It is derived, but the run doesn't read it.
    Unread,
    /// It is no longer derived.
    Lost,
    /// The run doesn't read it, and the search doesn't show whether it is derived.
    Unknown,
}

/// What becomes of a sample of another grammar in this one, under the table (ours). If a run reads the whole text in 5,000 steps, that decides it, and else
/// the search of `derivable`. In an accepted grammar, a text that the run answers but doesn't read is lost. The caller ensures that the registry fits. Fails
/// where memory runs out.
#[tactic(auto, using(crate::proofs::Read::unread_is_fate))]
pub fn fate_of(
    alloc: Global,
    grammar: &Grammar,
    table: &Table,
    registry: &Registry,
    is_accepted: bool,
    sample: &Sample,
) -> Result<Fate, AllocError>
    requires { Fits (offer_of registry.now) grammar.now }
    ensures { IfOk result (IsFate grammar.now table.now sample.now.text sample.now.forest) }
{
    let Sample { text, forest, .. } = sample;
    let outcome = probe(
        alloc,
        grammar,
        text,
        table,
        registry,
        STEPS,
        Reading::Library,
    )?;
    match outcome {
        Outcome::Answered(answer) => {
            let Answer { success, .. } = answer;
            read_or_not(alloc, grammar, is_accepted, text, forest, success)
        }
        Outcome::StepsUsed | Outcome::EmptyRound => unread(alloc, grammar, false, text),
    }
}

/// The fate of a text that the run doesn't read.
pub(crate) fn unread(
    alloc: Global,
    grammar: &Grammar,
    is_accepted: bool,
    text: &Text,
) -> Result<Fate, AllocError>
    ensures { IfOk result IsUnread }
{
    if is_accepted {
        return Ok(Fate::Lost);
    }
    Ok(fate_by(derivable(alloc, grammar, text.characters())?))
}

/// The fate of a text that the run doesn't read, from the answer of the search.
fn fate_by(found: Derived) -> Fate
    ensures { IsUnread result }
{
    match found {
        Derived::Yes => Fate::Unread,
        Derived::No => Fate::Lost,
        Derived::Unknown => Fate::Unknown,
    }
}

/// The fate of a text for which the run has this answer.
fn read_or_not(
    alloc: Global,
    grammar: &Grammar,
    is_accepted: bool,
    text: &Text,
    forest: &Forest,
    success: Option<Success>,
) -> Result<Fate, AllocError>
    ensures { IfOk result (IsAnsweredSo text.now forest.now success) }
{
    if let Some(success) = success
        && let Some(fate) = read_to(alloc, text, forest, &success)?
    {
        return Ok(fate);
    }
    unread(alloc, grammar, is_accepted, text)
}

/// The fate of a text that the run reads to its end; `None` if it stops before.
fn read_to(
    alloc: Global,
    text: &Text,
    forest: &Forest,
    success: &Success,
) -> Result<Option<Fate>, AllocError>
    ensures { IfOk result (λ fate. IfSome fate (IsRead text.now forest.now success.now)) }
{
    if success.place != text.len() {
        return Ok(None);
    }
    let fate = if are_alike(alloc, forest, &success.forest)? {
        Fate::SameTrees
    } else {
        Fate::OtherTrees
    };
    Ok(Some(fate))
}

/// Whether two forests are printed alike.
fn are_alike(alloc: Global, one: &Forest, other: &Forest) -> Result<bool, AllocError>
    ensures { IfOk result (λ alike. T alike ↔ json one.now ≡ json other.now) }
{
    let one = printed(alloc, one)?;
    let other = printed(alloc, other)?;
    Ok(one.as_slice() == other.as_slice())
}

/// The JSON of a forest.
fn printed(alloc: Global, forest: &Forest) -> Result<Vec<u8>, AllocError>
    ensures { IfOk result (λ bytes. bytes.items ≡ json forest.now) }
{
    let mut page = Meter::new(Vec::new(alloc));
    match write_json(alloc, forest, &mut page) {
        Ok(()) => Ok(page.into_inner()),
        Err(_) => Err(AllocError),
    }
}
