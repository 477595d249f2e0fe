//! What a run does at a node, asked of the machine once more so that it is proved: that the run enters the node after the noted number of turns, and how the
//! node answers when it is run there by itself. It answers so wherever it is run at that place and under that table.

ghost use Rattle.std.specs.Prelude.{◌≡◌, ◌<◌, List, [], true, false, slice_get, option_map, Some, IfOk, IfSome};
ghost use Rattle.pg_pred.specs.Offer.{offer_of};
ghost use Rattle.pg_grammar_value.specs.Fits.{Fits};
ghost use Rattle.pg_grammar_value.specs.Grammar.{rule_body};
ghost use Rattle.pg_grammar_value.specs.declared.trail.TrailItem.{TrailItem as Item};
ghost use Rattle.pg_tree.specs.Trees.{Tree};
ghost use Rattle.pg_language.specs.Derives.{Spot};
ghost use Rattle.pg_language.specs.Errors.{Error};
ghost use Rattle.pg_language.specs.Outcomes.{ok, failed};
ghost use Rattle.pg_language.specs.Answers.{given};
ghost use Rattle.pg_language.specs.declared.reading.Reading.TheVariants.{Library};
ghost use Rattle.pg_machine_turns.specs.Spots.{spot_at};
ghost use Rattle.pg_machine_turns.specs.TapeRuns.{IsAfter};
ghost use Rattle.pg_machine_turns.specs.View.{tape_of};
ghost use Rattle.pg_machine_turns.specs.declared.frame.Mode.TheVariants.{At};
ghost use Rattle.pg_explain_witness.specs.Running.{AnswersAs, ComesAgain, IsEntered, IsIdleTo, IsOther, IsSo, Lies, LinkTakes, OperandAnswers};

use crate::judging::Case;
use crate::trails::same_item;
use pg_grammar_form::NodeId;
use pg_grammar_value::{Grammar, TrailItem};
use pg_language::Reading;
use pg_machine_lists::{Context, Given};
use pg_machine_turns::{Machine, Mode, Progress, Reply};
use pg_table::Table;
use std::alloc::{AllocError, Global};

/// A way to answer.
#[derive(Clone, Copy)]
pub(crate) enum Manner {
    /// Ok, or failed and consumed: a choice tries no alternative after it.
    ForGood,
    /// Having consumed.
    Taking,
    /// Ok, without having consumed.
    Idle,
}

/// The parts of a link of a chain: its separator, and the operand after that.
#[derive(Clone, Copy)]
pub(crate) struct Link {
    pub(crate) separator: NodeId,
    pub(crate) operand: NodeId,
}

/// Where a node ended, and the table in force there.
#[derive(Drop)]
pub(crate) struct After {
    pub(crate) place: usize,
    pub(crate) table: Table,
}

/// The table in force where the run enters the node at the place, if it does so after this many turns.
pub(crate) fn table_at(
    alloc: Global,
    case: &Case<'_>,
    node: NodeId,
    place: usize,
    turns: u64,
) -> Result<Option<Table>, AllocError>
    requires { Fits (offer_of case.now.registry.now) case.now.grammar.now }
    ensures { IfOk result (λ found. IfSome found (IsEntered (given Library case.now.grammar.now case.now.text.now) case.now.table.now node place)) }
{
    let own = case.table.copy(alloc)?;
    let mut machine = Machine::new(alloc, own);
    let start = start_of(case.grammar);
    let came = runs(alloc, case, &mut machine, start, 0, turns)?;
    let found = table_if_at(alloc, &machine, &came.mode, node, place);
    drop(machine);
    found
}

/// The table in force, if the next turn enters the node at the place.
fn table_if_at(
    alloc: Global,
    machine: &Machine<'_>,
    mode: &Mode,
    node: NodeId,
    place: usize,
) -> Result<Option<Table>, AllocError>
    ensures { IfOk result (λ found. IfSome found (λ table. (table ≡ machine.now.table) × (mode.now ≡ At node place))) }
{
    if !is_at(mode, node, place) {
        return Ok(None);
    }
    let table = machine.table.copy(alloc)?;
    Ok(Some(table))
}

/// Whether the next turn enters the node at the place.
fn is_at(mode: &Mode, node: NodeId, place: usize) -> bool
    ensures { result ≡ true → mode.now ≡ At node place }
{
    match mode {
        Mode::At(entered, at) => entered.index() == node.index() && *at == place,
        Mode::With(_) | Mode::Endless => false,
    }
}

/// The body of the start rule.
fn start_of(grammar: &Grammar) -> NodeId
    ensures { option_map rule_body (slice_get grammar.now.rules grammar.now.start) ≡ Some result }
{
    let start = grammar.start_rule().index();
    grammar.rules()[start].body
}

/// Runs the node at the place on an idle machine, for at most this many turns.
fn runs<'a>(
    alloc: Global,
    case: &Case<'a>,
    machine: &mut Machine<'a>,
    node: NodeId,
    place: usize,
    most: u64,
) -> Result<Progress, AllocError>
    requires fits { Fits (offer_of case.now.registry.now) case.now.grammar.now }
    requires fresh { machine.old.frames ≡ [] }
    ensures { IfOk result (λ came. IsAfter (given Library case.now.grammar.now case.now.text.now)
        (tape_of (At node place) machine.old) came.steps (tape_of came.mode machine.new)) }
{
    let context = Context {
        alloc,
        registry: case.registry,
        given: Given {
            reading: Reading::Library,
            grammar: case.grammar,
            text: case.text,
        },
    };
    machine.turns(context, Mode::At(node, place), most)
}

/// Whether the node, run by itself at the place under the table, answers in this manner within the steps of a run.
pub(crate) fn answers_so(
    alloc: Global,
    case: &Case<'_>,
    node: NodeId,
    place: usize,
    under: Table,
    manner: Manner,
) -> Result<bool, AllocError>
    requires { Fits (offer_of case.now.registry.now) case.now.grammar.now }
    ensures { IfOk result (λ answers. answers ≡ true →
        AnswersAs (given Library case.now.grammar.now case.now.text.now) (IsSo manner) node (spot_at under place)) }
{
    let mut machine = Machine::new(alloc, under);
    let came = runs(alloc, case, &mut machine, node, place, case.most)?;
    let answers = lies_so(&machine, &came.mode, manner);
    drop(machine);
    Ok(answers)
}

/// Whether the node, run by itself at the place under the table, fails within the steps of a run, or is ok with another item first in its trail.
pub(crate) fn answers_otherwise(
    alloc: Global,
    case: &Case<'_>,
    node: NodeId,
    place: usize,
    under: Table,
    item: &TrailItem,
) -> Result<bool, AllocError>
    requires { Fits (offer_of case.now.registry.now) case.now.grammar.now }
    ensures { IfOk result (λ answers. answers ≡ true →
        AnswersAs (given Library case.now.grammar.now case.now.text.now) (IsOther item.now) node (spot_at under place)) }
{
    let mut machine = Machine::new(alloc, under);
    let came = runs(alloc, case, &mut machine, node, place, case.most)?;
    let answers = lies_otherwise(&machine, &came.mode, item);
    drop(machine);
    Ok(answers)
}

/// Whether no frame waits for the answer at hand, and it is an error, or ok with another item first in its trail.
fn lies_otherwise(machine: &Machine<'_>, mode: &Mode, item: &TrailItem) -> bool
    ensures { result ≡ true → Lies (IsOther item.now) (tape_of mode.now machine.now) }
{
    if !machine.frames.is_empty() {
        return false;
    }
    match mode {
        Mode::With(Reply::Succeeded { .. }) => begins_otherwise(
            machine.lists.trail.as_slice(),
            item,
        ),
        Mode::With(Reply::Failed { .. }) => true,
        Mode::With(Reply::EmptyRound) | Mode::At(_, _) | Mode::Endless => false,
    }
}

/// Whether the trail begins with an item other than this one.
fn begins_otherwise(trail: &[TrailItem], item: &TrailItem) -> bool
    ensures { result ≡ true → slice_get trail.now 0 ≡ Some item.now → ⊥ }
{
    match trail.first() {
        Some(read) => !same_item(read, item),
        None => false,
    }
}

/// Whether no frame waits for the answer at hand, and it is of this manner.
fn lies_so(machine: &Machine<'_>, mode: &Mode, manner: Manner) -> bool
    ensures { result ≡ true → Lies (IsSo manner) (tape_of mode.now machine.now) }
{
    if !machine.frames.is_empty() {
        return false;
    }
    match mode {
        Mode::With(Reply::Succeeded { consumed, .. }) => is_ok_so(manner, *consumed),
        Mode::With(Reply::Failed { consumed, .. }) => is_failed_so(manner, *consumed),
        Mode::With(Reply::EmptyRound) | Mode::At(_, _) | Mode::Endless => false,
    }
}

/// Whether an ok answer is of this manner.
fn is_ok_so(manner: Manner, consumed: bool) -> bool
    ensures { (end : Spot) (forest : List Tree) (trail : List Item) (error : Error) → result ≡ true → IsSo manner (ok consumed end forest trail error) }
{
    match manner {
        Manner::ForGood => true,
        Manner::Taking => consumed,
        Manner::Idle => !consumed,
    }
}

/// Whether an error answer is of this manner.
fn is_failed_so(manner: Manner, consumed: bool) -> bool
    ensures { (error : Error) → result ≡ true → IsSo manner (failed consumed error) }
{
    match manner {
        Manner::ForGood | Manner::Taking => consumed,
        Manner::Idle => false,
    }
}

/// Where the node ends when run by itself at the place under the table, if it is ok without consuming.
fn idle_end(
    alloc: Global,
    case: &Case<'_>,
    node: NodeId,
    place: usize,
    under: Table,
) -> Result<Option<After>, AllocError>
    requires { Fits (offer_of case.now.registry.now) case.now.grammar.now }
    ensures { IfOk result (λ found. IfSome found (λ after.
        AnswersAs (given Library case.now.grammar.now case.now.text.now) (IsIdleTo (spot_at after.table after.place)) node (spot_at under place))) }
{
    let mut machine = Machine::new(alloc, under);
    let came = runs(alloc, case, &mut machine, node, place, case.most)?;
    let found = lies_idle(alloc, &machine, &came.mode);
    drop(machine);
    found
}

/// Where the answer at hand ends, if no frame waits for it and it is ok without consuming.
fn lies_idle(alloc: Global, machine: &Machine<'_>, mode: &Mode) -> Result<Option<After>, AllocError>
    ensures { IfOk result (λ found. IfSome found (λ after. Lies (IsIdleTo (spot_at after.table after.place)) (tape_of mode.now machine.now))) }
{
    if !machine.frames.is_empty() {
        return Ok(None);
    }
    match mode {
        Mode::With(Reply::Succeeded { consumed, end, .. }) => {
            idle_after(alloc, machine, *consumed, *end)
        }
        Mode::With(Reply::Failed { .. } | Reply::EmptyRound) | Mode::At(_, _) | Mode::Endless => {
            Ok(None)
        }
    }
}

/// This place with the table in force, unless something was consumed.
fn idle_after(
    alloc: Global,
    machine: &Machine<'_>,
    consumed: bool,
    end: usize,
) -> Result<Option<After>, AllocError>
    ensures { IfOk result (λ found. IfSome found (λ after. (consumed ≡ false) × (spot_at machine.now.table end ≡ spot_at after.table after.place))) }
{
    if consumed {
        return Ok(None);
    }
    let table = machine.table.copy(alloc)?;
    Ok(Some(After { place: end, table }))
}

/// Whether the link's separator is ok at the place without consuming, and the operand after it answers in this manner.
pub(crate) fn operand_answers_so(
    alloc: Global,
    case: &Case<'_>,
    link: Link,
    place: usize,
    under: Table,
    manner: Manner,
) -> Result<bool, AllocError>
    requires { Fits (offer_of case.now.registry.now) case.now.grammar.now }
    ensures { IfOk result (λ answers. answers ≡ true →
        OperandAnswers (given Library case.now.grammar.now case.now.text.now) manner link.operand link.separator (spot_at under place)) }
{
    match idle_end(alloc, case, link.separator, place, under)? {
        Some(after) => {
            let After { place, table } = after;
            answers_so(alloc, case, link.operand, place, table, manner)
        }
        None => Ok(false),
    }
}

/// Whether the link consumes something at the place, under the table.
pub(crate) fn link_takes(
    alloc: Global,
    case: &Case<'_>,
    link: Link,
    place: usize,
    under: &Table,
) -> Result<bool, AllocError>
    requires { Fits (offer_of case.now.registry.now) case.now.grammar.now }
    ensures { IfOk result (λ takes. takes ≡ true →
        LinkTakes (given Library case.now.grammar.now case.now.text.now) link.operand link.separator (spot_at under.now place)) }
{
    let one = under.copy(alloc)?;
    if answers_so(alloc, case, link.separator, place, one, Manner::Taking)? {
        return Ok(true);
    }
    let other = under.copy(alloc)?;
    operand_answers_so(alloc, case, link, place, other, Manner::Taking)
}

/// Whether the node, run by itself at the place under the table, is entered again there after this many turns.
pub(crate) fn comes_again(
    alloc: Global,
    case: &Case<'_>,
    node: NodeId,
    place: usize,
    under: Table,
    turns: u64,
) -> Result<bool, AllocError>
    requires { Fits (offer_of case.now.registry.now) case.now.grammar.now }
    ensures { IfOk result (λ comes. comes ≡ true →
        ComesAgain (given Library case.now.grammar.now case.now.text.now) node place under) }
{
    let mut machine = Machine::new(alloc, under);
    let came = runs(alloc, case, &mut machine, node, place, turns)?;
    let comes = is_again(came.steps, &came.mode, node, place);
    drop(machine);
    Ok(comes)
}

/// Whether at least one turn was made, and the next one enters the node at the place.
fn is_again(steps: u64, mode: &Mode, node: NodeId, place: usize) -> bool
    ensures some { result ≡ true → 0 < steps }
    ensures at { result ≡ true → mode.now ≡ At node place }
{
    if steps == 0 {
        return false;
    }
    is_at(mode, node, place)
}
