//! Watched runs: a watcher sees the run that answers.
//!
//! It sees the machine before each turn and the mode after it, and changes neither. So a watched run gives the same answer as
//! [`crate::probe`], which is proved turn by turn.

ghost use Rattle.std.specs.Prelude.{◌≡◌, ◌≤◌, ◌⊎◌, ◌-◌, ◌^◌, true, IfOk};
ghost use Rattle.pg_pred.specs.Offer.{offer_of};
ghost use Rattle.pg_grammar_value.specs.Fits.{Fits};
ghost use Rattle.pg_language.specs.Answers.{given};
ghost use Rattle.pg_machine.specs.Outcomes.{IsOutcome};
ghost use Rattle.pg_machine_turns.specs.Ready.{IsTapeReady};
ghost use Rattle.pg_machine_turns.specs.Tape.{tape_turn, tape_is_last};
ghost use Rattle.pg_machine_turns.specs.TapeRuns.{IsAfter, IsTapeReadyFor};
ghost use Rattle.pg_machine_turns.specs.View.{tape_of};

use crate::answer::Outcome;
use crate::probing::{ended, start_of};
use pg_grammar_value::Grammar;
use pg_language::Reading;
use pg_machine_lists::{Context, Given};
use pg_machine_turns::{Machine, Mode, Progress};
use pg_pred::Registry;
use pg_table::Table;
use pg_text::Text;
use std::alloc::{AllocError, Global};

/// A watcher of a run. The only error is that memory ran out, and then the run stops.
pub trait Watcher {
    /// Sees the machine, and the mode in which its next turn begins.
    fn see(&mut self, machine: &Machine<'_>, mode: &Mode) -> Result<(), AllocError>;

    /// Sees the mode in which that turn ended.
    fn follow(&mut self, after: &Mode) -> Result<(), AllocError>;

    /// Sees the machine and its mode after the last turn, and the number of turns.
    fn end(&mut self, machine: &Machine<'_>, mode: &Mode, steps: u64) -> Result<(), AllocError>;
}

/// The input of a run: a grammar's start rule at the beginning of a text, in this reading. The registry has the predicates and builders that the grammar names.
#[derive(Clone, Copy)]
pub struct Run<'a> {
    pub grammar: &'a Grammar,
    pub text: &'a Text,
    pub registry: &'a Registry,
    pub reading: Reading,
}

/// Runs the start rule as [`crate::probe`] does, with the same answer, and shows the run to a watcher. The registry must fit. The only error is
/// that memory ran out, for the run or for its watcher.
pub fn probe_watched<W: Watcher>(
    alloc: Global,
    run: &Run<'_>,
    table: &Table,
    max_steps: u64,
    watcher: &mut W,
) -> Result<Outcome, AllocError>
    requires { Fits (offer_of run.now.registry.now) run.now.grammar.now }
    ensures { IfOk result (IsOutcome (given run.now.reading run.now.grammar.now run.now.text.now) table.now max_steps) }
{
    let own = table.copy(alloc)?;
    let mut machine = Machine::new(alloc, own);
    let begun = Mode::At(start_of(run.grammar), 0);
    let progress = watched_turns(alloc, run, &mut machine, begun, max_steps, watcher)?;
    watcher.end(&machine, &progress.mode, progress.steps)?;
    let outcome = ended(alloc, run.text, &mut machine, progress.mode, progress.steps);
    drop(machine);
    outcome
}

/// Makes turns until none is left, or as many as given, and shows each to the watcher. The machine's conditions must hold for that many turns.
fn watched_turns<'a, W: Watcher>(
    alloc: Global,
    run: &Run<'a>,
    machine: &mut Machine<'a>,
    begun: Mode,
    most: u64,
    watcher: &mut W,
) -> Result<Progress, AllocError>
    requires fits { Fits (offer_of run.now.registry.now) run.now.grammar.now }
    requires ready { IsTapeReadyFor (offer_of run.now.registry.now) run.now.grammar.now most (tape_of begun machine.old) }
    ensures after { IfOk result (λ came. IsAfter (given run.now.reading run.now.grammar.now run.now.text.now) (tape_of begun machine.old) came.steps (tape_of came.mode machine.new)) }
    ensures within { IfOk result (λ came. came.steps ≤ most) }
    ensures last { IfOk result (λ came. (most ≤ came.steps) ⊎ (tape_is_last (tape_of came.mode machine.new) ≡ true)) }
{
    let mut mode = begun;
    let mut steps: u64 = 0;
    while steps < most && !machine.is_over(&mode) {
        watcher.see(&*machine, &mode)?;
        mode = one_turn(alloc, run, machine, mode)?;
        watcher.follow(&mode)?;
        steps += 1;
    }
    Ok(Progress { mode, steps })
}

/// One turn of the machine.
fn one_turn<'a>(
    alloc: Global,
    run: &Run<'a>,
    machine: &mut Machine<'a>,
    mode: Mode,
) -> Result<Mode, AllocError>
    requires fits { Fits (offer_of run.now.registry.now) run.now.grammar.now }
    requires ready { IsTapeReady (offer_of run.now.registry.now) run.now.grammar.now (2 ^ 64 - 1) (tape_of mode machine.old) }
    ensures { IfOk result (λ next. tape_of next machine.new ≡
        tape_turn (given run.now.reading run.now.grammar.now run.now.text.now) (tape_of mode machine.old)) }
{
    let context = Context {
        alloc,
        registry: run.registry,
        given: Given {
            reading: run.reading,
            grammar: run.grammar,
            text: run.text,
        },
    };
    let progress = machine.turns(context, mode, 1)?;
    Ok(progress.mode)
}
