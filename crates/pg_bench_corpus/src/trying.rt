//! The trials of a corpus' cases.
//!
//! First the cases without a start of their own are tried, then, start by start, all others, so that a grammar is loaded once for each start.

ghost use Rattle.pg_pred.specs.Offer.{offer_of};
ghost use Rattle.pg_bench_corpus.specs.Tested.{IsReady};

use crate::covered::cover;
use crate::starts::{Refusal, started};
use crate::tested::{Given, trial};
use pg_corpus::Case;
use pg_corpus_judging::Trial;
use pg_trail_coverage::Coverage;
use std::alloc::{AllocError, Global};

/// What is to be tried: the cases of a corpus whose name contains a text (ours).
#[derive(Clone, Copy)]
pub struct Asked<'a> {
    pub cases: &'a [Case<'a>],
    pub only: &'a str,
    /// Whether it is noted too what the cases that pass take of the grammar.
    pub covers: bool,
}

impl Asked<'_> {
    /// Whether the case with this number is to be tried, with this start.
    fn has(&self, number: usize, start: Option<&[u8]>) -> bool {
        match self.cases.get(number) {
            Some(case) => is_same_start(case.start, start) && self.names(case.name),
            None => false,
        }
    }

    /// Whether a name contains the text.
    fn names(&self, name: &[u8]) -> bool {
        match str::from_utf8(name) {
            Ok(name) => name.contains(self.only),
            Err(_) => false,
        }
    }
}

/// Whether two starts are the same, or there is neither.
fn is_same_start(one: Option<&[u8]>, other: Option<&[u8]>) -> bool {
    match (one, other) {
        (Some(one), Some(other)) => one == other,
        (None, None) => true,
        (Some(_), None) | (None, Some(_)) => false,
    }
}

/// Tries cases by a grammar (ours). There is a trial for each case in order; none for one that is not asked for. A case whose start is no rule, or by whose start
/// the grammar isn't accepted, can't be tried, and has that as its reason. If it is asked for, the coverage notes what the cases that pass take of the grammar;
/// where it is probed, that is nothing. The only error is that memory runs out.
pub fn trials(
    alloc: Global,
    given: Given,
    asked: Asked,
    coverage: &mut Coverage,
) -> Result<Vec<Option<Trial>>, AllocError>
    requires { IsReady (offer_of given.registry.now) given.tested.now }
{
    let mut trials = none_yet(alloc, asked.cases.len())?;
    try_cases(alloc, given, asked, None, trials.as_mut_slice(), coverage)?;
    for number in 0..asked.cases.len() {
        try_start(alloc, given, asked, number, trials.as_mut_slice(), coverage)?;
    }
    Ok(trials)
}

/// No trial for each of so many cases.
fn none_yet(alloc: Global, count: usize) -> Result<Vec<Option<Trial>>, AllocError> {
    let mut trials = Vec::with_capacity(alloc, count)?;
    for _ in 0..count {
        trials.push(None)?;
    }
    Ok(trials)
}

/// Tries the cases that have this start.
fn try_cases(
    alloc: Global,
    given: Given,
    asked: Asked,
    start: Option<&[u8]>,
    trials: &mut [Option<Trial>],
    coverage: &mut Coverage,
) -> Result<(), AllocError>
    requires { IsReady (offer_of given.registry.now) given.tested.now }
{
    for number in 0..asked.cases.len() {
        if asked.has(number, start) {
            let case = asked.cases[number];
            let made = trial(alloc, given.tested, given.registry, case)?;
            if asked.covers && matches!(made, Trial::Passed) {
                cover(alloc, given, case.text, coverage)?;
            }
            note(trials, number, made);
        }
    }
    Ok(())
}

/// Notes the trial of a case.
fn note(trials: &mut [Option<Trial>], number: usize, made: Trial) {
    if let Some(trial) = trials.get_mut(number) {
        *trial = Some(made);
    }
}

/// Tries the cases that start where the case with this number does, unless they are tried already.
fn try_start(
    alloc: Global,
    given: Given,
    asked: Asked,
    number: usize,
    trials: &mut [Option<Trial>],
    coverage: &mut Coverage,
) -> Result<(), AllocError> {
    let Some(rule) = next_start(asked, number, trials) else {
        return Ok(());
    };
    let start = rule.as_bytes();
    match started(alloc, given, rule)? {
        Ok(tested) => {
            let other = Given {
                tested: &tested,
                ..given
            };
            let done = try_cases(alloc, other, asked, Some(start), trials, coverage);
            drop(tested);
            done
        }
        Err(Refusal::NotLoaded(why)) => refuse_cases(alloc, asked, start, why.as_slice(), trials),
        Err(Refusal::NoRule(why)) => {
            // Others with this start are asked for one by one, which is no dearer than to look for them here.
            note(trials, number, Trial::Untried(why));
            Ok(())
        }
    }
}

/// The rule at which the case with this number starts, if it is to be tried and isn't yet.
fn next_start<'a>(asked: Asked<'a>, number: usize, trials: &[Option<Trial>]) -> Option<&'a str> {
    let rule = asked.cases.get(number)?.start?;
    let is_done = match trials.get(number) {
        Some(trial) => trial.is_some(),
        None => true,
    };
    if is_done || !asked.has(number, Some(rule)) {
        return None;
    }
    str::from_utf8(rule).ok()
}

/// Notes of the cases with this start why they can't be tried.
fn refuse_cases(
    alloc: Global,
    asked: Asked,
    rule: &[u8],
    why: &[u8],
    trials: &mut [Option<Trial>],
) -> Result<(), AllocError> {
    for number in 0..asked.cases.len() {
        if asked.has(number, Some(rule)) {
            let why = Vec::from_slice(alloc, why)?;
            note(trials, number, Trial::Untried(why));
        }
    }
    Ok(())
}
