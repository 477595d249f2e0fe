//! The forest of a text by the quick run, where it says something.

ghost use Rattle.std.specs.Prelude.{◌≡◌, ◌-◌, ◌*◌, ◌^◌, min, true, IfOk, IfSome};
ghost use Rattle.pg_machine_plan.specs.Judged.{IsRightFor};
ghost use Rattle.pg_table.specs.Tables.{initial, whole};
ghost use Rattle.pg_bench.specs.Promise.{HasForestOfText, most_steps};

use crate::done::Done;
use pg_bench_grammar::AcceptedGrammar;
use pg_machine_plan::Plan;
use pg_machine_quick::{Running, attempt};
use pg_predict::Checked;
use pg_table::Table;
use pg_text::Text;
use pg_tree_placed::PlacedForest;
use std::alloc::{AllocError, Global};

/// The forest of a text, over it, and its cost.
#[derive(Drop)]
pub(crate) struct ForestParse<'a> {
    pub forest: PlacedForest<'a>,
    pub done: Done,
}

/// The forest of a text by the plan of the grammar, if there is one and the run along it says something. None says nothing of the text. The only error is
/// running out of memory.
pub(crate) fn quick_parse<'a>(
    alloc: Global,
    accepted: &AcceptedGrammar,
    text: &'a Text,
) -> Result<Option<ForestParse<'a>>, AllocError>
    requires { initial accepted.now.checked.grammar ≡ whole accepted.now.table }
    ensures { IfOk result (λ found. IfSome found (λ parse. HasForestOfText accepted.now.checked.grammar text.now parse.forest parse.done)) }
{
    match accepted.checked.plan() {
        Some(plan) => parse_by(
            alloc,
            accepted.checked.as_checked(),
            &accepted.table,
            plan,
            text,
        ),
        None => Ok(None),
    }
}

/// As `quick_parse`, by this plan.
#[tactic(auto, using(crate::proofs::QuickForest::quick_forest, pg_table::proofs::Added::own_table))]
fn parse_by<'a>(
    alloc: Global,
    checked: &Checked,
    table: &Table,
    plan: &Plan,
    text: &'a Text,
) -> Result<Option<ForestParse<'a>>, AllocError>
    requires right { IsRightFor checked.now.grammar plan.now }
    requires table { initial checked.now.grammar ≡ whole table.now }
    ensures { IfOk result (λ found. IfSome found (λ parse. HasForestOfText checked.now.grammar text.now parse.forest parse.done)) }
{
    // These are called for their contracts: facts about the grammar and the text.
    let grammar = checked.grammar();
    let _nodes = grammar.nodes();
    let _characters = text.characters();
    let places = text.len() + 1;
    let turns = turns_of(checked.cost(), places);
    match attempt(alloc, grammar, plan, table, text, turns)? {
        Some(running) => {
            let Running {
                pc: _,
                place: _,
                frames,
                trees,
                nodes,
                taken: _,
            } = running;
            drop(frames);
            let done = done_of(nodes, checked.cost(), places);
            Ok(Some(ForestParse {
                forest: trees,
                done,
            }))
        }
        None => Ok(None),
    }
}

/// How many turns a run over a text with this many places may take: a few for each node that any run enters, and for each of the ten rows, at most, of an
/// expression around it.
fn turns_of(cost: u64, places: usize) -> usize {
    let nodes = cost.saturating_mul(places as u64);
    usize::try_from(nodes.saturating_mul(64)).unwrap_or(usize::MAX)
}

/// The cost of a run that entered so many nodes, on a text with this many places.
fn done_of(nodes: usize, cost: u64, places: usize) -> Done
    ensures { result ≡ record { steps = min (2 * nodes - 1) (2 ^ 64 - 1); cost = cost; most = most_steps cost places; planned = true } }
{
    let steps = match (nodes as u64).checked_mul(2) {
        Some(twice) => twice.saturating_sub(1),
        None => u64::MAX,
    };
    let most = cost.saturating_mul(places as u64);
    Done {
        steps,
        cost,
        most,
        planned: true,
    }
}
