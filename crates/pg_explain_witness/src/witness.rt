//! The search for texts that show findings.

ghost use Rattle.pg_pred.specs.Offer.{offer_of};
ghost use Rattle.pg_table.specs.Tables.{ComesFrom};
ghost use Rattle.pg_grammar_value.specs.Fits.{Fits};
ghost use Rattle.std.specs.Prelude.{◌≡◌, IfOk, IfSome, OnOk};
ghost use Rattle.pg_explain_witness.specs.Witnesses.{IsSound, IsWitness, IsWitnessIn};

use crate::asks::Shows;
use crate::bound::Bound;
use crate::found::{Found, Witness};
use crate::judging::{Case, Verdict, derivation_along, loss, stop};
use crate::trials::{Trials, drafted, trials_of};
use pg_explain_samples::{Basis, Draft, Field, trail_of};
use pg_grammar_form::NodeId;
use pg_grammar_value::Grammar;
use pg_pred::Registry;
use pg_predict::ViolationKind;
use pg_sets::Sets;
use pg_table::Table;
use pg_text::{Text, TextFault};
use std::alloc::{AllocError, Global};

/// How often each trial is drafted: plain, with spaces, then varied.
const ROUNDS: u64 = 10;
/// The least number of steps allowed for a candidate.
const LEAST_STEPS: u64 = 2_000;

/// A grammar with what its texts cost, and with what they are run.
#[derive(Drop)]
pub struct Seeker<'g> {
    pub grammar: &'g Grammar,
    /// The operator table in force where a run begins.
    pub table: &'g Table,
    /// The predicates and builders that the grammar names.
    pub registry: &'g Registry,
    basis: Basis<'g>,
}

impl<'g> Seeker<'g> {
    /// Works out what the texts of the grammar cost. Fails where memory runs out.
    pub fn of(
        alloc: Global,
        grammar: &'g Grammar,
        sets: &'g Sets,
        table: &'g Table,
        registry: &'g Registry,
    ) -> Result<Seeker<'g>, AllocError>
        ensures grammar { IfOk result (λ seeker. seeker.grammar.now ≡ grammar.now) }
        ensures table { IfOk result (λ seeker. seeker.table.now ≡ table.now) }
        ensures registry { IfOk result (λ seeker. seeker.registry.now ≡ registry.now) }
    {
        let basis = Basis::of(alloc, grammar, sets)?;
        Ok(Seeker {
            grammar,
            table,
            registry,
            basis,
        })
    }

    /// A text that shows the finding at a node, if one is found within the bound. The search uses shortest texts and the initial table (ours). The caller
    /// ensures that the registry fits and that the table comes from the grammar. Fails where memory runs out.
    pub fn witness(
        &self,
        alloc: Global,
        node: NodeId,
        kind: &ViolationKind<usize>,
        bound: &mut Bound,
    ) -> Result<Option<Witness>, AllocError>
        requires fits { Fits (offer_of self.now.registry.now) self.now.grammar.now }
        requires table { ComesFrom self.now.grammar.now self.now.table.now }
        ensures { IfOk result (λ found. IfSome found (IsWitness self.now.grammar.now self.now.table.now node)) }
    {
        bound.take(self.grammar.nodes().len() as u64);
        if bound.is_used_up() {
            return Ok(None);
        }
        let trials = trials_of(alloc, &self.basis, self.table, node, kind)?;
        self.seek(alloc, node, &trials, bound)
    }

    /// Makes and judges the drafts, the plainest of each kind first. A weak witness is returned only if no better one is found.
    fn seek(
        &self,
        alloc: Global,
        node: NodeId,
        trials: &Trials,
        bound: &mut Bound,
    ) -> Result<Option<Witness>, AllocError>
        requires fits { Fits (offer_of self.now.registry.now) self.now.grammar.now }
        requires table { ComesFrom self.now.grammar.now self.now.table.now }
        ensures { IfOk result (λ found. IfSome found (IsWitness self.now.grammar.now self.now.table.now node)) }
    {
        let mut found = Found::nothing(alloc, node);
        for round in 0..ROUNDS {
            if round >= found.rounds() {
                break;
            }
            self.seek_so(alloc, trials, round, &mut found, bound)?;
        }
        Ok(found.into_best())
    }

    /// Makes and judges one draft of each kind, unless enough was found.
    fn seek_so(
        &self,
        alloc: Global,
        trials: &Trials,
        round: u64,
        found: &mut Found,
        bound: &mut Bound,
    ) -> Result<(), AllocError>
        requires fits { Fits (offer_of self.now.registry.now) self.now.grammar.now }
        requires table { ComesFrom self.now.grammar.now self.now.table.now }
        requires found { IsWitnessIn self.now.grammar.now self.now.table.now found.old.node found.old }
        ensures { OnOk result (IsWitnessIn self.now.grammar.now self.now.table.now found.old.node found.new) }
    {
        for trial in &trials.list {
            if bound.is_used_up() || found.rounds() == 0 {
                break;
            }
            let field = Field::of(&self.basis, &trials.fronts, self.table);
            let drafted = drafted(alloc, field, trial, round)?;
            self.judge(alloc, &drafted, trial.shows, found, bound)?;
        }
        Ok(())
    }

    /// Judges a draft, and keeps what it shows if that is better than the best so far.
    fn judge(
        &self,
        alloc: Global,
        drafted: &Draft<'_>,
        shows: Shows,
        found: &mut Found,
        bound: &mut Bound,
    ) -> Result<(), AllocError>
        requires fits { Fits (offer_of self.now.registry.now) self.now.grammar.now }
        requires table { ComesFrom self.now.grammar.now self.now.table.now }
        requires found { IsWitnessIn self.now.grammar.now self.now.table.now found.old.node found.old }
        ensures { OnOk result (IsWitnessIn self.now.grammar.now self.now.table.now found.old.node found.new) }
    {
        bound.take(drafted.done as u64);
        if found.has_seen(&drafted.text) {
            return Ok(());
        }
        let Some(text) = text_of(alloc, &drafted.text)? else {
            return Ok(());
        };
        let most = most_steps(drafted.done).min(bound.steps);
        let case = Case {
            grammar: self.grammar,
            node: found.node,
            text: &text,
            table: self.table,
            registry: self.registry,
            most,
        };
        match verdict(alloc, &case, drafted, shows)? {
            Some(verdict) => {
                bound.run(verdict.steps.saturating_add(setting_up(self.grammar)));
                found.note(alloc, &drafted.text, text, verdict.place, verdict.shown)
            }
            None => Ok(()),
        }
    }
}

/// The verdict on the text of a draft; `None` if a derivation is wanted and the draft isn't one.
fn verdict(
    alloc: Global,
    case: &Case<'_>,
    drafted: &Draft<'_>,
    shows: Shows,
) -> Result<Option<Verdict>, AllocError>
    requires fits { Fits (offer_of case.now.registry.now) case.now.grammar.now }
    requires table { ComesFrom case.now.grammar.now case.now.table.now }
    ensures { IfOk result (λ v. IfSome v (IsSound case.now.grammar.now case.now.table.now case.now.text.now case.now.node)) }
{
    match shows {
        Shows::Loss => lost(alloc, case, drafted),
        Shows::Reentry | Shows::EmptyLink | Shows::EmptyRound => {
            let verdict = stop(alloc, case, shows)?;
            Ok(Some(verdict))
        }
    }
}

/// The verdict on the text of a draft that the grammar derives; `None` if it doesn't derive it.
fn lost(alloc: Global, case: &Case<'_>, drafted: &Draft<'_>) -> Result<Option<Verdict>, AllocError>
    requires fits { Fits (offer_of case.now.registry.now) case.now.grammar.now }
    requires table { ComesFrom case.now.grammar.now case.now.table.now }
    ensures { IfOk result (λ v. IfSome v (IsSound case.now.grammar.now case.now.table.now case.now.text.now case.now.node)) }
{
    if !drafted.whole {
        return Ok(None);
    }
    let trail = trail_of(alloc, case.table, &drafted.picks)?;
    match derivation_along(alloc, case, trail)? {
        Some(derived) => {
            let verdict = loss(alloc, case, &derived)?;
            Ok(Some(verdict))
        }
        None => Ok(None),
    }
}

/// How many steps the preparation of a run counts for. Each leaf then works out its behaviour on ASCII.
fn setting_up(grammar: &Grammar) -> u64 {
    (grammar.nodes().len() as u64).saturating_mul(4)
}

/// The most steps for a draft that took `done` tasks.
fn most_steps(done: usize) -> u64 {
    (done as u64).saturating_mul(8).saturating_add(LEAST_STEPS)
}

/// The text of these characters, if it isn't too long.
fn text_of(alloc: Global, characters: &[char]) -> Result<Option<Text>, AllocError> {
    let mut spelled = String::new(alloc);
    for c in characters {
        spelled.push(*c)?;
    }
    match Text::from_bytes(alloc, spelled.as_bytes()) {
        Ok(text) => Ok(Some(text)),
        Err(TextFault::NotUtf8 | TextFault::TooLong) => Ok(None),
        Err(TextFault::Memory) => Err(AllocError),
    }
}
