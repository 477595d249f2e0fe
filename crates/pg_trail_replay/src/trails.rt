//! Replays trails over whole texts.

ghost use Rattle.std.specs.Prelude.{◌≡◌, ◌∷◌, [], Some, None, slice_get, option_map, IfOk, IfErr, IfSome};
ghost use Rattle.pg_grammar_value.specs.Grammar.{rule_body};
ghost use Rattle.pg_table.specs.Tables.{ComesFrom};
ghost use Rattle.pg_trail_replay.specs.Ends.{IsTheForest, IsFault};
ghost use Rattle.pg_trail_replay.specs.Halts.{first_state, IsEnd, IsHalt, IsStopOf};
ghost use Rattle.pg_trail_replay.specs.Tasks.{on, told};
ghost use Rattle.pg_trail_replay.specs.Turns.{begun, Halts, Halts-prop};
ghost use Rattle.pg_trail_replay.specs.View.{state_of};

use crate::replay_fault::{Mismatch, ReplayFault, Stop};
use crate::replayer::Replayer;
use crate::task::{Halt, Looseness, ShortTask, Task};
use crate::task_lists::TaskLists;
use pg_grammar_form::NodeId;
use pg_grammar_value::{Grammar, Trail};
use pg_table::Table;
use pg_text::Text;
use pg_tree::Forest;
use std::alloc::{AllocError, Global};

/// The forest of the derivation that the trail records, from the start rule over the whole text, under the table: the only
/// one that is derived with exactly this trail. The replay makes no choice of its own (ours).
///
/// If there is none, the error is the first fault from the left: the next item doesn't fit the node or a rule is entered again before
/// anything was consumed, the text doesn't fit, characters or items are left over, or a declaration isn't admitted. The operators of an
/// expression are judged before its first operand. The table must come from the grammar.
pub fn replay(
    alloc: Global,
    grammar: &Grammar,
    text: &Text,
    table: &Table,
    trail: &Trail,
) -> Result<Forest, ReplayFault>
    requires { ComesFrom grammar.now table.now }
    ensures ok { IfOk result (IsTheForest grammar.now text.now table.now trail.now) }
    ensures err { IfErr result (IsFault grammar.now text.now table.now trail.now) }
{
    // Called for its contract: the parts of a node stand after it.
    let _nodes = grammar.nodes();
    let journey = Journey {
        grammar,
        text,
        table,
        trail,
    };
    journey.forest(alloc)
}

/// A trail to replay over a text. The replay comes to an end.
#[derive(Drop)]
struct Journey<'a> {
    grammar: &'a Grammar,
    text: &'a Text,
    table: &'a Table,
    trail: &'a Trail,
    ghost halts: { Halts grammar.now text.now table.now trail.now } by { Halts-prop grammar.now text.now table.now trail.now },
}

impl Journey<'_> {
    /// The forest to which the trail leads.
    fn forest(&self, alloc: Global) -> Result<Forest, ReplayFault>
        requires { ComesFrom self.now.grammar.now self.now.table.now }
        ensures ok { IfOk result (IsTheForest self.now.grammar.now self.now.text.now self.now.table.now self.now.trail.now) }
        ensures err { IfErr result (IsFault self.now.grammar.now self.now.text.now self.now.table.now self.now.trail.now) }
    {
        // Called for its contract: each operator has a digit.
        let _operators = self.table.operators();
        let body = start_of(self.grammar);
        let mut replayer = begin(alloc, self.grammar, body, self.table, self.trail)?;
        'turns: loop {
            match replayer.step(alloc, self.grammar, self.text)? {
                Some(halt) => return halted(replayer, self.text, halt),
                None => {}
            }
        }
    }
}

impl<'a> Replayer<'a> {
    /// The replay that enters the start rule, at the start of the text and of the trail.
    #[tactic(auto, using(crate::proofs::KnownRules::begun_by))]
    pub fn begin(
        alloc: Global,
        grammar: &'a Grammar,
        table: &Table,
        trail: &'a Trail,
    ) -> Result<Replayer<'a>, AllocError>
        ensures { IfOk result (λ replayer. begun grammar.now table.now trail.now (slice_get grammar.now.rules grammar.now.start) ≡ on (state_of replayer)) }
    {
        let body = start_of(grammar);
        let replayer = begin(alloc, grammar, body, table, trail)?;
        Ok(replayer)
    }
}

/// The body of the start rule.
fn start_of(grammar: &Grammar) -> NodeId
    ensures { option_map rule_body (slice_get grammar.now.rules grammar.now.start) ≡ Some result }
{
    let start = grammar.start_rule().index();
    grammar.rules()[start].body
}

/// The replay that enters the start rule, at the start of the text.
#[tactic(auto, using(crate::proofs::KnownRules::none_kept))]
fn begin<'a>(
    alloc: Global,
    grammar: &'a Grammar,
    body: NodeId,
    table: &Table,
    trail: &'a Trail,
) -> Result<Replayer<'a>, AllocError>
    ensures { IfOk result (λ replayer. state_of replayer ≡ first_state grammar.now body table.now trail.now) }
{
    let known = vec![in alloc; None; grammar.rules().len()]?;
    let blank = vec![in alloc; None; grammar.nodes().len()]?;
    let table = table.copy(alloc)?;
    let mut replayer = Replayer {
        tasks: TaskLists::new(alloc),
        place: 0,
        table,
        forest: Forest::new(alloc),
        rest: trail.items(),
        entered: Vec::new(alloc),
        marks: Vec::new(alloc),
        loose: Looseness::Tight,
        known,
        blank,
    };
    replayer.enter_body(grammar.start_rule())?;
    replayer.push_tasks(&[Task::Short(ShortTask::Node(body))])?;
    Ok(replayer)
}

/// The result of the last turn.
fn halted(replayer: Replayer<'_>, text: &Text, halt: Halt) -> Result<Forest, ReplayFault>
    ensures ok { IfOk result (IsEnd text.now (told (Some halt) (state_of replayer.entry))) }
    ensures err { IfErr result (IsHalt text.now (told (Some halt) (state_of replayer.entry))) }
{
    match stop_of(&replayer, text, halt) {
        Some(stop) => Err(ReplayFault::Stopped(stop)),
        None => Ok(forest_of(replayer)),
    }
}

/// Where and why the replay stops, unless at the end of text and trail.
fn stop_of(replayer: &Replayer<'_>, text: &Text, halt: Halt) -> Option<Stop>
    ensures stop { IfSome result (IsStopOf text.now (told (Some halt) (state_of replayer.now))) }
    ensures end { result ≡ None → IsEnd text.now (told (Some halt) (state_of replayer.now)) replayer.now.forest }
{
    let (place, left) = (replayer.place, replayer.rest.len());
    match halt {
        Halt::Stopped(why) => Some(Stop { why, place, left }),
        Halt::Ended => {
            if place == text.len() && left == 0 {
                return None;
            }
            let why = Mismatch::LeftOver;
            Some(Stop { why, place, left })
        }
    }
}

/// The trees that were derived.
fn forest_of(replayer: Replayer<'_>) -> Forest
    ensures { result ≡ replayer.entry.forest }
{
    let Replayer { forest, .. } = replayer;
    forest
}
