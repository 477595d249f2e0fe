//! The verdict on a candidate, from two calls: whether the grammar derives the text along the trail, and what Parsec answers. It shows a finding only if
//! derivation and run part at the finding's node, or if the run gets stuck there.

ghost use Rattle.std.specs.Prelude.{◌≡◌, true, None, IfOk, IfSome};
ghost use Rattle.pg_pred.specs.Offer.{offer_of};
ghost use Rattle.pg_table.specs.Tables.{ComesFrom};
ghost use Rattle.pg_grammar_value.specs.Fits.{Fits};
ghost use Rattle.pg_language.specs.Answers.{given};
ghost use Rattle.pg_language.specs.declared.reading.Reading.TheVariants.{Library};
ghost use Rattle.pg_machine.specs.Outcomes.{IsAnswer, IsOutcome};
ghost use Rattle.pg_trail_replay.specs.Ends.{IsDerived};
ghost use Rattle.pg_explain_witness.specs.Losing.{LosesAt, PartAt};
ghost use Rattle.pg_explain_witness.specs.Shown.{IsKeptApart, IsReadSo, IsSaid, IsShownBy};
ghost use Rattle.pg_explain_witness.specs.Witnesses.{IsSound};

use crate::asks::Shows;
use crate::derived::derived_notes;
use crate::halting::Halting;
use crate::losing::{are_parted, is_lost};
use crate::notes::Notes;
use crate::stopping::{endless_at, idle_round};
use crate::trails::are_same;
use crate::watch::Watch;
use pg_grammar_form::NodeId;
use pg_grammar_value::{Grammar, Trail};
use pg_language::Reading;
use pg_machine::{Answer, Outcome, Run, Success, Watcher, probe_watched};
use pg_message::ParseError;
use pg_pred::Registry;
use pg_table::Table;
use pg_text::Text;
use pg_trail_replay::{ReplayFault, replay};
use pg_tree::{Forest, Meter, write_json};
use std::alloc::{AllocError, Global};

/// What a text shows. The first three concern texts that the grammar derives.
#[derive(Drop)]
pub enum Shown {
    /// The parser answers an error, with or without having consumed.
    Lost {
        /// Whether input was consumed.
        consumed: bool,
        /// The error.
        error: ParseError,
    },
    /// The parser is ok, but leaves the text from this place on, in characters from 0.
    LeftOver(usize),
    /// The parser is ok and reads the whole text, but not as the derivation does. So there are two readings.
    TwoReadings {
        /// Whether they have different trees.
        apart: bool,
    },
    /// A round of a repetition consumes nothing, where Text.Parsec stops with a fault (P6).
    EmptyRound,
    /// The parser gives no answer within this many steps (P5).
    NoAnswer(u64),
}

/// A text to be judged for the finding at a node.
#[derive(Clone, Copy)]
pub(crate) struct Case<'a> {
    pub(crate) grammar: &'a Grammar,
    pub(crate) node: NodeId,
    pub(crate) text: &'a Text,
    pub(crate) table: &'a Table,
    pub(crate) registry: &'a Registry,
    /// How many steps a run may take.
    pub(crate) most: u64,
}

/// The verdict on a candidate.
#[derive(Drop)]
pub(crate) struct Verdict {
    /// The place where the finding's node shows it; 0 if nothing is shown.
    pub(crate) place: usize,
    /// What the candidate shows, if anything.
    pub(crate) shown: Option<Shown>,
    /// How many steps were used up.
    pub(crate) steps: u64,
}

/// A derivation of a text.
#[derive(Drop)]
pub(crate) struct Derivation {
    pub(crate) trail: Trail,
    pub(crate) forest: Forest,
}

/// For how many rounds to look for something better than this: none where the parser goes wrong, and most where the trees are the same.
pub(crate) fn rounds_beside(shown: &Shown) -> u64 {
    match shown {
        Shown::Lost { .. } | Shown::LeftOver(_) | Shown::EmptyRound | Shown::NoAnswer(_) => 0,
        Shown::TwoReadings { apart } => { if *apart { 2 } else { 4 } }
    }
}

/// The derivation of the whole text by the grammar along this trail, if there is one.
pub(crate) fn derivation_along(
    alloc: Global,
    case: &Case<'_>,
    trail: Trail,
) -> Result<Option<Derivation>, AllocError>
    requires { ComesFrom case.now.grammar.now case.now.table.now }
    ensures { IfOk result (λ found. IfSome found (λ d. IsDerived case.now.grammar.now case.now.text.now case.now.table.now d.trail d.forest)) }
{
    match replay(alloc, case.grammar, case.text, case.table, &trail) {
        Ok(forest) => Ok(Some(Derivation { trail, forest })),
        Err(ReplayFault::Stopped(_)) => Ok(None),
        Err(ReplayFault::Memory) => Err(AllocError),
    }
}

/// What the finding's node loses of a text with this derivation.
pub(crate) fn loss(
    alloc: Global,
    case: &Case<'_>,
    derivation: &Derivation,
) -> Result<Verdict, AllocError>
    requires fits { Fits (offer_of case.now.registry.now) case.now.grammar.now }
    requires derived { IsDerived case.now.grammar.now case.now.text.now case.now.table.now derivation.now.trail derivation.now.forest }
    ensures { IfOk result (IsSound case.now.grammar.now case.now.table.now case.now.text.now case.now.node) }
{
    let mut watch = Watch::new(alloc, case.grammar, case.node);
    let outcome = watched(alloc, case, &mut watch)?;
    match outcome {
        Outcome::Answered(answer) => lost_by(alloc, case, derivation, answer, &watch.notes),
        Outcome::StepsUsed | Outcome::EmptyRound => Ok(nothing(case.most)),
    }
}

/// What the parser does with the text, seen by the watcher.
fn watched<W: Watcher>(
    alloc: Global,
    case: &Case<'_>,
    watcher: &mut W,
) -> Result<Outcome, AllocError>
    requires { Fits (offer_of case.now.registry.now) case.now.grammar.now }
    ensures { IfOk result (IsOutcome (given Library case.now.grammar.now case.now.text.now) case.now.table.now case.now.most) }
{
    let run = Run {
        grammar: case.grammar,
        text: case.text,
        registry: case.registry,
        reading: Reading::Library,
    };
    probe_watched(alloc, &run, case.table, case.most, watcher)
}

/// What an answer shows of a text with this derivation. The notes say what the run did at the node. Nothing is shown if derivation and run don't part there.
fn lost_by(
    alloc: Global,
    case: &Case<'_>,
    derivation: &Derivation,
    answer: Answer,
    notes: &Notes,
) -> Result<Verdict, AllocError>
    requires fits { Fits (offer_of case.now.registry.now) case.now.grammar.now }
    requires derived { IsDerived case.now.grammar.now case.now.text.now case.now.table.now derivation.now.trail derivation.now.forest }
    requires answer { IsAnswer (given Library case.now.grammar.now case.now.text.now) case.now.table.now answer }
    ensures { IfOk result (IsSound case.now.grammar.now case.now.table.now case.now.text.now case.now.node) }
{
    let steps = answer.steps;
    match parting(alloc, case, derivation, &answer, notes)? {
        Some(place) => {
            let shown = answered(alloc, case.text, derivation, answer)?;
            Ok(Verdict {
                place,
                shown,
                steps,
            })
        }
        None => Ok(nothing(steps)),
    }
}

/// The place where the node loses the derivation in the run with this answer, of which the notes are. If the run reads the whole text, the derivation that it
/// kept has to part there too.
fn parting(
    alloc: Global,
    case: &Case<'_>,
    derivation: &Derivation,
    answer: &Answer,
    notes: &Notes,
) -> Result<Option<usize>, AllocError>
    requires { Fits (offer_of case.now.registry.now) case.now.grammar.now }
    ensures { IfOk result (λ found. IfSome found (λ place.
        LosesAt (given Library case.now.grammar.now case.now.text.now) case.now.table.now derivation.now.trail case.now.node place
        × IsKeptApart (given Library case.now.grammar.now case.now.text.now) case.now.table.now case.now.node derivation.now.trail answer.now.success)) }
{
    let derived = notes_along(alloc, case, &derivation.trail)?;
    let Some(lost) = derived.parting(notes) else {
        return Ok(None);
    };
    if !is_kept_apart(alloc, case, &derived, &derivation.trail, answer)? {
        return Ok(None);
    }
    if is_lost(alloc, case, &derivation.trail, &lost)? {
        Ok(Some(lost.place))
    } else {
        Ok(None)
    }
}

/// Whether the run kept another derivation of the whole text, which parts at the node from the one with the trail. Also true if it didn't read the whole
/// text. The notes are of the derivation with the trail.
fn is_kept_apart(
    alloc: Global,
    case: &Case<'_>,
    derived: &Notes,
    trail: &Trail,
    answer: &Answer,
) -> Result<bool, AllocError>
    ensures { IfOk result (λ is_kept. is_kept ≡ true →
        IsKeptApart (given Library case.now.grammar.now case.now.text.now) case.now.table.now case.now.node trail.now answer.now.success) }
{
    match &answer.success {
        Some(success) => {
            if success.place != case.text.len() {
                return Ok(true);
            }
            parts_from(alloc, case, derived, trail, &success.trail)
        }
        None => Ok(true),
    }
}

/// Whether the derivation with the trail, of which the notes are, parts at the node from the one with the other trail and loses there.
fn parts_from(
    alloc: Global,
    case: &Case<'_>,
    derived: &Notes,
    trail: &Trail,
    other: &Trail,
) -> Result<bool, AllocError>
    ensures { IfOk result (λ parts. parts ≡ true →
        PartAt (given Library case.now.grammar.now case.now.text.now) case.now.table.now trail.now other.now case.now.node) }
{
    let read = notes_along(alloc, case, other)?;
    match derived.parting(&read) {
        Some(parted) => are_parted(alloc, case, trail, other, &parted),
        None => Ok(false),
    }
}

/// What the derivation with this trail does at the node.
fn notes_along(alloc: Global, case: &Case<'_>, trail: &Trail) -> Result<Notes, AllocError> {
    derived_notes(alloc, case.grammar, case.text, case.table, trail, case.node)
}

/// What an answer shows of a text with this derivation.
fn answered(
    alloc: Global,
    text: &Text,
    derivation: &Derivation,
    answer: Answer,
) -> Result<Option<Shown>, AllocError>
    ensures { IfOk result (λ shown. IfSome shown (IsSaid text.now derivation.now.trail answer.consumed answer.error answer.success)) }
{
    let Answer {
        consumed,
        error,
        success,
        ..
    } = answer;
    match success {
        Some(success) => read_so(alloc, text, derivation, &success),
        None => Ok(Some(Shown::Lost { consumed, error })),
    }
}

/// What an ok answer shows.
fn read_so(
    alloc: Global,
    text: &Text,
    derivation: &Derivation,
    success: &Success,
) -> Result<Option<Shown>, AllocError>
    ensures { IfOk result (λ shown. IfSome shown (IsReadSo text.now derivation.now.trail success.now)) }
{
    if success.place != text.len() {
        return Ok(Some(Shown::LeftOver(success.place)));
    }
    if are_same(derivation.trail.items(), success.trail.items()) {
        return Ok(None);
    }
    let apart = are_apart(alloc, &derivation.forest, &success.forest)?;
    Ok(Some(Shown::TwoReadings { apart }))
}

/// Whether two forests print differently.
fn are_apart(alloc: Global, one: &Forest, other: &Forest) -> Result<bool, AllocError> {
    let one = printed(alloc, one)?;
    let other = printed(alloc, other)?;
    Ok(one.as_slice() != other.as_slice())
}

/// The JSON of a forest.
fn printed(alloc: Global, forest: &Forest) -> Result<Vec<u8>, AllocError> {
    let mut page = Meter::new(Vec::new(alloc));
    if write_json(alloc, forest, &mut page).is_err() {
        return Err(AllocError);
    }
    Ok(page.into_inner())
}

/// Whether the parser gets stuck with the text, in the way that would show the finding.
pub(crate) fn stop(alloc: Global, case: &Case<'_>, shows: Shows) -> Result<Verdict, AllocError>
    requires { Fits (offer_of case.now.registry.now) case.now.grammar.now }
    ensures { IfOk result (IsSound case.now.grammar.now case.now.table.now case.now.text.now case.now.node) }
{
    let mut halting = Halting::new(alloc, case.grammar, case.node, shows)?;
    let outcome = watched(alloc, case, &mut halting)?;
    let halt = halting.halt;
    drop(halting);
    match outcome {
        Outcome::Answered(answer) => Ok(nothing(answer.steps)),
        Outcome::StepsUsed => {
            let place = endless_at(alloc, case, halt, shows)?;
            Ok(shown_at(case, place, Shown::NoAnswer(case.most)))
        }
        Outcome::EmptyRound => {
            let place = idle_round(alloc, case, halt)?;
            Ok(shown_at(case, place, Shown::EmptyRound))
        }
    }
}

/// The verdict that this is shown at the place; nothing if there is no place.
fn shown_at(case: &Case<'_>, place: Option<usize>, shown: Shown) -> Verdict
    requires { IfSome place (λ place. IsShownBy (given Library case.now.grammar.now case.now.text.now) case.now.table.now case.now.node place shown) }
    ensures { IsSound case.now.grammar.now case.now.table.now case.now.text.now case.now.node result }
{
    match place {
        Some(place) => Verdict {
            place,
            shown: Some(shown),
            steps: case.most,
        },
        None => nothing(case.most),
    }
}

/// The verdict that nothing is shown.
fn nothing(steps: u64) -> Verdict
    ensures { result.shown ≡ None }
{
    Verdict {
        place: 0,
        shown: None,
        steps,
    }
}
