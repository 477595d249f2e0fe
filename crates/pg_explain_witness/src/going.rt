//! What a derivation does at a node, asked of `pg_trail_replay` once more so that it is proved: its trail is replayed as far as the note says.

ghost use Rattle.std.specs.Prelude.{◌≡◌, true, IfOk, IfSome};
ghost use Rattle.pg_language.specs.Answers.{given};
ghost use Rattle.pg_language.specs.declared.reading.Reading.TheVariants.{Library};
ghost use Rattle.pg_trail_replay.specs.Tasks.{node as enters, on, next_turn};
ghost use Rattle.pg_trail_replay.specs.View.{state_of, task_of};
ghost use Rattle.pg_explain_witness.specs.Going.{AreLeft, ComesAlong, GoesOn, HasLeft, IsEntering, Passes};

use crate::judging::Case;
use pg_grammar_form::NodeId;
use pg_grammar_value::{Trail, TrailItem};
use pg_trail_replay::{Replayer, RoundsTask, ShortTask, Task};
use std::alloc::{AllocError, Global};

/// Rounds of a repetition or links of a chain, as they are noted of a derivation.
#[derive(Clone, Copy)]
pub(crate) struct Rounds {
    /// The part that begins each of them.
    pub(crate) part: NodeId,
    /// The place of the one that comes next.
    pub(crate) place: usize,
    /// How many turns of the replay lead there.
    pub(crate) turns: u64,
}

/// The derivation's item for the node of the finding at the place, if it enters the node there after this many turns.
pub(crate) fn item_at<'t>(
    alloc: Global,
    case: &Case<'t>,
    trail: &'t Trail,
    place: usize,
    turns: u64,
) -> Result<Option<&'t TrailItem>, AllocError>
    ensures { IfOk result (λ found. IfSome found (λ item.
        Passes (given Library case.now.grammar.now case.now.text.now) case.now.table.now trail.now (IsEntering case.now.node place item.now))) }
{
    let mut replayer = Replayer::begin(alloc, case.grammar, case.table, trail)?;
    let item = comes_to_item(alloc, case, trail, &mut replayer, place, turns);
    drop(replayer);
    item
}

/// The item for the node, if the replay enters it at the place after this many turns.
fn comes_to_item<'t>(
    alloc: Global,
    case: &Case<'t>,
    trail: &Trail,
    replayer: &mut Replayer<'t>,
    place: usize,
    turns: u64,
) -> Result<Option<&'t TrailItem>, AllocError>
    requires { ComesAlong case.now.grammar.now case.now.text.now case.now.table.now trail.now (state_of replayer.old) }
    ensures { IfOk result (λ found. IfSome found (λ item.
        Passes (given Library case.now.grammar.now case.now.text.now) case.now.table.now trail.now (IsEntering case.now.node place item.now))) }
{
    if goes_so_far(alloc, case, trail, replayer, turns)? {
        Ok(next_item(replayer, case.node, place))
    } else {
        Ok(None)
    }
}

/// Whether the derivation with the trail has such a round at their place, after the turns that lead there.
pub(crate) fn has_round(
    alloc: Global,
    case: &Case<'_>,
    trail: &Trail,
    rounds: Rounds,
) -> Result<bool, AllocError>
    ensures { IfOk result (λ has. has ≡ true →
        GoesOn (given Library case.now.grammar.now case.now.text.now) case.now.table.now trail.now rounds.part rounds.place) }
{
    let Some(left) = rounds_left(alloc, case, trail, rounds)? else {
        return Ok(false);
    };
    if left > 0 { Ok(true) } else { Ok(false) }
}

/// How many of these rounds are left in the derivation with the trail at their place, after the turns that lead there. `None` if none of them comes next
/// there.
pub(crate) fn rounds_left(
    alloc: Global,
    case: &Case<'_>,
    trail: &Trail,
    rounds: Rounds,
) -> Result<Option<usize>, AllocError>
    ensures { IfOk result (λ found. IfSome found (λ left.
        Passes (given Library case.now.grammar.now case.now.text.now) case.now.table.now trail.now (AreLeft rounds.part rounds.place left))) }
{
    let mut replayer = Replayer::begin(alloc, case.grammar, case.table, trail)?;
    let left = comes_to_rounds(alloc, case, trail, &mut replayer, rounds);
    drop(replayer);
    left
}

/// How many of these rounds are left when the replay has made the turns that lead there.
fn comes_to_rounds<'a>(
    alloc: Global,
    case: &Case<'a>,
    trail: &Trail,
    replayer: &mut Replayer<'a>,
    rounds: Rounds,
) -> Result<Option<usize>, AllocError>
    requires { ComesAlong case.now.grammar.now case.now.text.now case.now.table.now trail.now (state_of replayer.old) }
    ensures { IfOk result (λ found. IfSome found (λ left.
        Passes (given Library case.now.grammar.now case.now.text.now) case.now.table.now trail.now (AreLeft rounds.part rounds.place left))) }
{
    if goes_so_far(alloc, case, trail, replayer, rounds.turns)? {
        Ok(left_next(replayer, rounds.part, rounds.place))
    } else {
        Ok(None)
    }
}

/// Replays the trail for this many turns. Answers whether all of them were made.
fn goes_so_far<'a>(
    alloc: Global,
    case: &Case<'a>,
    trail: &Trail,
    replayer: &mut Replayer<'a>,
    turns: u64,
) -> Result<bool, AllocError>
    requires { ComesAlong case.now.grammar.now case.now.text.now case.now.table.now trail.now (state_of replayer.old) }
    ensures { IfOk result (λ came. came ≡ true → ComesAlong case.now.grammar.now case.now.text.now case.now.table.now trail.now (state_of replayer.new)) }
{
    for _ in 0..turns {
        if !goes_on(alloc, case, replayer)? {
            return Ok(false);
        }
    }
    Ok(true)
}

/// Performs the next task. Answers whether that succeeded.
fn goes_on<'a>(
    alloc: Global,
    case: &Case<'a>,
    replayer: &mut Replayer<'a>,
) -> Result<bool, AllocError>
    ensures { IfOk result (λ goes_on. goes_on ≡ true →
        next_turn case.now.grammar.now case.now.text.now (state_of replayer.old) ≡ on (state_of replayer.new)) }
{
    match replayer.step(alloc, case.grammar, case.text)? {
        None => Ok(true),
        Some(_) => Ok(false),
    }
}

/// The next item, if the next task enters the node at the place. Removes that task.
fn next_item<'t>(replayer: &mut Replayer<'t>, node: NodeId, place: usize) -> Option<&'t TrailItem>
    ensures { IfSome result (λ item. IsEntering node place item.now (state_of replayer.old)) }
{
    if replayer.place != place {
        return None;
    }
    let Some(task) = replayer.tasks.pop() else {
        return None;
    };
    if is_node(&task, node) {
        replayer.rest.first()
    } else {
        None
    }
}

/// Whether the task is to enter the node.
fn is_node(task: &Task<'_>, node: NodeId) -> bool
    ensures { result ≡ true → task_of task.now ≡ enters node }
{
    match task {
        Task::Short(ShortTask::Node(entered)) => entered.index() == node.index(),
        Task::Short(_) | Task::Rounds(_) | Task::Close(_) | Task::Leave(_) => false,
    }
}

/// How many rounds are left at the place, if the next task is of rounds that begin with the part. Removes that task.
fn left_next(replayer: &mut Replayer<'_>, part: NodeId, place: usize) -> Option<usize>
    ensures { IfSome result (λ left. AreLeft part place left (state_of replayer.old)) }
{
    if replayer.place != place {
        return None;
    }
    match replayer.tasks.pop() {
        Some(task) => left_of(&task, part),
        None => None,
    }
}

/// How many rounds are left, if the task is of rounds that begin with the part.
fn left_of(task: &Task<'_>, part: NodeId) -> Option<usize>
    ensures { IfSome result (λ left. HasLeft part left (task_of task.now)) }
{
    match task {
        Task::Short(ShortTask::Rounds { part: of, left }) => if_same(*of, part, *left),
        Task::Rounds(RoundsTask::MoreRounds { part: of, left, .. }) => if_same(*of, part, *left),
        Task::Rounds(RoundsTask::Links { chain, left, .. }) => if_same(
            chain.separator,
            part,
            *left,
        ),
        Task::Short(_) | Task::Rounds(_) | Task::Close(_) | Task::Leave(_) => None,
    }
}

/// `left`, if the two are the same node.
fn if_same(one: NodeId, other: NodeId, left: usize) -> Option<usize>
    ensures { IfSome result (λ n. (one ≡ other) × (left ≡ n)) }
{
    if one.index() == other.index() {
        Some(left)
    } else {
        None
    }
}
