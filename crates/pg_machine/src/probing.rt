//! Probes: runs of any grammar's start rule.

ghost use Rattle.std.specs.Prelude.{◌≡◌, slice_get, option_map, Some, None, IfOk, IfSome, IfNone};
ghost use Rattle.pg_grammar_value.specs.Grammar.{rule_body};
ghost use Rattle.pg_pred.specs.Offer.{offer_of};
ghost use Rattle.pg_grammar_value.specs.Fits.{Fits};
ghost use Rattle.pg_machine.specs.Outcomes.{IsOutcome, Ends, last_tape, outcome_on};
ghost use Rattle.pg_language.specs.Answers.{given};
ghost use Rattle.pg_machine_turns.specs.View.{tape_of};

use crate::answer::{Answer, Outcome, Success};
use pg_grammar_form::NodeId;
use pg_grammar_value::{Grammar, Trail};
use pg_language::Reading;
use pg_machine_lists::{Context, Given, RunForest};
use pg_machine_turns::{Machine, Mode, Reply};
use pg_pred::Registry;
use pg_table::Table;
use pg_text::Text;
use std::alloc::{AllocError, Global};
use std::mem::replace;

/// Runs the start rule at the beginning of the text, under the table, in at most this many turns: each enters a node or passes an answer on, so `m`
/// nodes take `2m - 1`. The answer has a copy of the table. The outcome is P5 exactly if the start rule's answer or P6 takes more
/// turns, or if there is none: rules recur without end, or a chain goes on without an end. The registry must fit.
pub fn probe<'a>(
    alloc: Global,
    grammar: &'a Grammar,
    text: &'a Text,
    table: &Table,
    registry: &Registry,
    max_steps: u64,
    reading: Reading,
) -> Result<Outcome, AllocError>
    requires { Fits (offer_of registry.now) grammar.now }
    ensures { IfOk result (IsOutcome (given reading grammar.now text.now) table.now max_steps) }
{
    let own = table.copy(alloc)?;
    let mut machine = Machine::new(alloc, own);
    let begun = Mode::At(start_of(grammar), 0);
    let context = Context {
        alloc,
        registry,
        given: Given {
            reading,
            grammar,
            text,
        },
    };
    let progress = machine.turns(context, begun, max_steps)?;
    let outcome = ended(alloc, text, &mut machine, progress.mode, progress.steps);
    drop(machine);
    outcome
}

/// The body of the start rule.
pub(crate) fn start_of(grammar: &Grammar) -> NodeId
    ensures { option_map rule_body (slice_get grammar.now.rules grammar.now.start) ≡ Some result }
{
    let start = grammar.start_rule().index();
    grammar.rules()[start].body
}

/// The outcome of a run after this many turns. The state of the machine is then unspecified.
pub(crate) fn ended(
    alloc: Global,
    text: &Text,
    machine: &mut Machine<'_>,
    mode: Mode,
    steps: u64,
) -> Result<Outcome, AllocError>
    ensures { IfOk result (Ends text.now (tape_of mode machine.old) steps) }
{
    let Some(reply) = last_reply(machine, mode) else {
        return Ok(Outcome::StepsUsed);
    };
    match reply {
        Reply::Succeeded {
            consumed,
            end,
            error,
        } => {
            let error = machine.error(alloc, text, error)?;
            let success = Some(success(alloc, machine, end)?);
            Ok(Outcome::Answered(Answer {
                consumed,
                error,
                steps,
                success,
            }))
        }
        Reply::Failed { consumed, error } => {
            let error = machine.error(alloc, text, error)?;
            Ok(Outcome::Answered(Answer {
                consumed,
                error,
                steps,
                success: None,
            }))
        }
        Reply::EmptyRound => Ok(Outcome::EmptyRound),
    }
}

/// The reply, if no frame waits for it.
fn last_reply(machine: &Machine<'_>, mode: Mode) -> Option<Reply>
    ensures some { IfSome result (λ reply. tape_of mode machine.now ≡ last_tape reply machine.now) }
    ensures none { IfNone result (outcome_on (tape_of mode machine.now) ≡ None) }
{
    match mode {
        Mode::At(_, _) => None,
        Mode::With(reply) => {
            if machine.frames.is_empty() {
                Some(reply)
            } else {
                None
            }
        }
        Mode::Endless => None,
    }
}

/// The result of an ok answer that ends at this place, with the machine's trees and items.
fn success(alloc: Global, machine: &mut Machine<'_>, end: usize) -> Result<Success, AllocError>
    ensures place { IfOk result (λ success. success.place ≡ end) }
    ensures table { IfOk result (λ success. success.table ≡ machine.old.table) }
    ensures forest { IfOk result (λ success. success.forest ≡ machine.old.lists.forest.kept) }
    ensures trail { IfOk result (λ success. success.trail ≡ machine.old.lists.trail.items) }
{
    let table = machine.table.copy(alloc)?;
    let trees = replace(&mut machine.lists.forest, RunForest::new(alloc));
    let forest = trees.into_forest();
    let trail = replace(&mut machine.lists.trail, Vec::new(alloc));
    Ok(Success {
        place: end,
        table,
        forest,
        trail: Trail::from_items(trail),
    })
}
