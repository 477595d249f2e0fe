//! Trying the cases of corpora by a grammar.
//!
//! The grammar is loaded once. Of a corpus with a fault nothing is tried, and the others are. What is printed of a corpus is in memory before its first byte is
//! written.

ghost use Rattle.pg_pred.specs.Offer.{offer_of};
ghost use Rattle.pg_bench_corpus.specs.Tested.{IsReady};

use crate::commands::NO;
use pg_bench_corpus::{Asked, Given, coverage_page, tested_of, trials};
use pg_bench_grammar::{placed_of, write_page};
use pg_command_line::{Tested, Testing};
use pg_corpus::{Corpus, CorpusError, read_corpus};
use pg_corpus_judging::Trial;
use pg_corpus_pages::{Sum, Told, push_json, push_lines, updated_page};
use pg_pred::Registry;
use pg_report::{
    Handle, Names, UNUSABLE, cannot_write, grammar_alone, print_page, print_report, refuse,
};
use pg_trail_coverage::Coverage;
use pg_tree::Meter;
use std::alloc::{AllocError, Global};
use std::io::Input;
use std::rt::Files;
use std::{cmp, io};

/// A loaded grammar, and what is to be printed of the cases that are tried by it.
#[derive(Clone, Copy)]
struct Job<'a> {
    given: Given<'a>,
    testing: Testing<'a>,
}

/// Tries the cases of each corpus by the grammar. The status is the greatest of all.
pub(crate) fn test_files<R: AllocGlobal + Files + Input + Print + Eprint>(
    rt: &Handle<R>,
    grammar: &str,
    corpora: &[&str],
    registry: &Registry,
    testing: Testing,
) -> Result<u8, AllocError> {
    if corpora.len() > 1 && matches!(testing.tested, Tested::Updated) {
        return Ok(refuse(rt.rt, "pgw: --update takes one corpus"));
    }
    match grammar_alone(rt, grammar)? {
        Some(bytes) => test_each(rt, bytes.as_slice(), grammar, corpora, registry, testing),
        None => Ok(UNUSABLE),
    }
}

/// Tries the cases of each corpus by the grammar with these bytes. What is wrong with it is reported once.
fn test_each<R: AllocGlobal + Files + Input + Print + Eprint>(
    rt: &Handle<R>,
    bytes: &[u8],
    grammar: &str,
    corpora: &[&str],
    registry: &Registry,
    testing: Testing,
) -> Result<u8, AllocError> {
    match tested_of(rt.alloc(), bytes, registry, testing.probes) {
        Ok(tested) => {
            let given = Given {
                tested: &tested,
                bytes,
                registry,
            };
            let job = Job { given, testing };
            let status = test_all(rt, job, grammar, corpora);
            drop(tested);
            status
        }
        Err(fault) => print_report(rt, fault, Names::of_grammar(grammar)),
    }
}

/// What is known of all cases.
#[derive(Drop)]
struct Tally {
    sum: Sum,
    /// What those that passed take of the grammar, if that is to be told.
    coverage: Coverage,
}

/// A tally of no cases.
fn no_cases(alloc: Global, job: Job) -> Result<Tally, AllocError> {
    let coverage = if job.testing.covers {
        Coverage::new(alloc, job.given.tested.grammar())?
    } else {
        Coverage::empty(alloc)
    };
    Ok(Tally {
        sum: Sum::new(),
        coverage,
    })
}

/// Tries the cases of each corpus by a loaded grammar in a file with this name, and prints the sum. Where a write fails, no more are tried.
fn test_all<R: AllocGlobal + Files + Input + Print + Eprint>(
    rt: &Handle<R>,
    job: Job,
    grammar: &str,
    corpora: &[&str],
) -> Result<u8, AllocError>
    requires { IsReady (offer_of job.given.registry.now) job.given.tested.now }
{
    let mut tally = no_cases(rt.alloc(), job)?;
    let status = test_corpora(rt, job, corpora, &mut tally)?;
    if rt.has_failed() {
        return Ok(status);
    }
    let printed = print_tally(rt, job, grammar, &tally)?;
    Ok(cmp::max(status, printed))
}

/// Tries the cases of each corpus, as long as no write fails.
fn test_corpora<R: AllocGlobal + Files + Input + Print + Eprint>(
    rt: &Handle<R>,
    job: Job,
    corpora: &[&str],
    tally: &mut Tally,
) -> Result<u8, AllocError>
    requires { IsReady (offer_of job.given.registry.now) job.given.tested.now }
{
    let mut greatest = 0;
    for corpus in corpora {
        let status = test_file(rt, job, corpus, tally)?;
        greatest = cmp::max(greatest, status);
        if rt.has_failed() {
            break;
        }
    }
    Ok(greatest)
}

/// Prints the sum of all cases, and what none takes of the grammar if that is to be told.
fn print_tally<R: AllocGlobal + Print + Eprint>(
    rt: &Handle<R>,
    job: Job,
    grammar: &str,
    tally: &Tally,
) -> Result<u8, AllocError> {
    let status = print_sum(rt, tally.sum, job.testing.tested);
    if !job.testing.covers {
        return Ok(status);
    }
    let printed = print_coverage(rt, job, grammar, &tally.coverage)?;
    Ok(cmp::max(status, printed))
}

/// Prints what no case takes of the grammar. The file is read once more, since what is written where isn't kept.
fn print_coverage<R: AllocGlobal + Print + Eprint>(
    rt: &Handle<R>,
    job: Job,
    grammar: &str,
    coverage: &Coverage,
) -> Result<u8, AllocError> {
    match placed_of(rt.alloc(), job.given.bytes, job.given.registry) {
        Ok(placed) => {
            let page = coverage_page(rt.alloc(), grammar, job.given.bytes, &placed, coverage);
            drop(placed);
            print_page(rt, page?.as_str())
        }
        Err(fault) => print_report(rt, fault, Names::of_grammar(grammar)),
    }
}

/// Prints the sum of all cases, if cases are told in lines for people. That takes no memory: once the cases are told, none is wanted for their sum.
fn print_sum<R: AllocGlobal + Print + Eprint>(rt: &Handle<R>, sum: Sum, tested: Tested) -> u8 {
    match tested {
        Tested::Failed | Tested::All => match rt.println(sum) {
            Ok(()) => 0,
            Err(_) => cannot_write(rt),
        },
        Tested::Json | Tested::Updated => 0,
    }
}

/// Tries the cases of the corpus in a file.
fn test_file<R: AllocGlobal + Files + Input + Print + Eprint>(
    rt: &Handle<R>,
    job: Job,
    name: &str,
    tally: &mut Tally,
) -> Result<u8, AllocError>
    requires { IsReady (offer_of job.given.registry.now) job.given.tested.now }
{
    match grammar_alone(rt, name)? {
        Some(file) => test_bytes(rt, job, name, file.as_slice(), tally),
        None => Ok(UNUSABLE),
    }
}

/// Tries the cases of the corpus with these bytes, or says what is wrong with it.
fn test_bytes<R: AllocGlobal + Print + Eprint>(
    rt: &Handle<R>,
    job: Job,
    name: &str,
    file: &[u8],
    tally: &mut Tally,
) -> Result<u8, AllocError>
    requires { IsReady (offer_of job.given.registry.now) job.given.tested.now }
{
    match read_corpus(rt.alloc(), file) {
        Ok(corpus) => {
            let status = test_corpus(rt, job, name, &corpus, tally);
            drop(corpus);
            status
        }
        Err(CorpusError::Fault(fault)) => Ok(refuse(rt.rt, format_args!("{name}:{fault}"))),
        Err(CorpusError::Memory) => Err(AllocError),
    }
}

/// Tries the cases of a corpus, and prints what is wanted of them.
fn test_corpus<R: AllocGlobal + Print + Eprint>(
    rt: &Handle<R>,
    job: Job,
    name: &str,
    corpus: &Corpus,
    tally: &mut Tally,
) -> Result<u8, AllocError>
    requires { IsReady (offer_of job.given.registry.now) job.given.tested.now }
{
    let asked = Asked {
        cases: corpus.cases.as_slice(),
        only: job.testing.only,
        covers: job.testing.covers,
    };
    let trials = trials(rt.alloc(), job.given, asked, &mut tally.coverage)?;
    count(trials.as_slice(), &mut tally.sum);
    let page = page_of(
        rt.alloc(),
        corpus,
        name,
        trials.as_slice(),
        job.testing.tested,
    )?;
    let written = print_bytes(rt, page.as_slice());
    let status = status_of(trials.as_slice(), job.testing.tested);
    Ok(cmp::max(written, status))
}

/// What is printed of the cases of a corpus, whose trials these are.
fn page_of(
    alloc: Global,
    corpus: &Corpus,
    name: &str,
    trials: &[Option<Trial>],
    tested: Tested,
) -> Result<Vec<u8>, AllocError> {
    match tested {
        Tested::Updated => updated_page(alloc, corpus, trials),
        Tested::Failed | Tested::All | Tested::Json => {
            lines_of(alloc, corpus, name, trials, tested)
        }
    }
}

/// The lines of the cases of a corpus.
fn lines_of(
    alloc: Global,
    corpus: &Corpus,
    name: &str,
    trials: &[Option<Trial>],
    tested: Tested,
) -> Result<Vec<u8>, AllocError> {
    let mut page = Vec::new(alloc);
    for (case, trial) in corpus.cases.iter().zip(trials) {
        if let Some(trial) = trial {
            let told = Told {
                file: name,
                case: *case,
                trial,
            };
            push_case(alloc, &mut page, told, tested)?;
        }
    }
    Ok(page)
}

/// Appends the lines of a case.
fn push_case(
    alloc: Global,
    page: &mut Vec<u8>,
    told: Told,
    tested: Tested,
) -> Result<(), AllocError> {
    match tested {
        Tested::Failed | Tested::Updated => push_lines(alloc, page, told, false),
        Tested::All => push_lines(alloc, page, told, true),
        Tested::Json => push_json(alloc, page, told),
    }
}

/// Prints a page to standard output, and answers the status.
fn print_bytes<R: AllocGlobal + Print + Eprint>(rt: &Handle<R>, page: &[u8]) -> u8 {
    let mut writer = Meter::new(io::writer(rt));
    match write_page(page, &mut writer) {
        Ok(()) => 0,
        Err(_) => cannot_write(rt),
    }
}

/// Counts the trials of cases.
fn count(trials: &[Option<Trial>], sum: &mut Sum) {
    for trial in trials {
        if let Some(trial) = trial {
            sum.count(trial);
        }
    }
}

/// The status of trials: 1 if a case failed. For an updated corpus, which has what came, it is 1 only if a case can't be tried.
fn status_of(trials: &[Option<Trial>], tested: Tested) -> u8 {
    for trial in trials {
        if let Some(trial) = trial
            && is_bad(trial, tested)
        {
            return NO;
        }
    }
    0
}

/// Whether the status tells of a trial.
fn is_bad(trial: &Trial, tested: Tested) -> bool {
    match trial {
        Trial::Passed => false,
        Trial::Failed(_) => !matches!(tested, Tested::Updated),
        Trial::Untried(_) => true,
    }
}
