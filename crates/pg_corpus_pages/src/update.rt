//! A corpus with what came in the place of what was wanted.

ghost use Rattle.std.specs.Prelude.{◌≡◌, length, IfOk};

use pg_corpus::{Case, Corpus, can_be_wanted, updated};
use pg_corpus_judging::Trial;
use std::alloc::{AllocError, Global};

/// The bytes of a corpus with what came in the place of what was wanted, where these are the trials of its cases in order (ours). What is wanted stays where a
/// case passed, was not asked for or can't be tried. An error whose lines can't stand there, as one with a blank line, is written without them. The only error
/// is that memory runs out.
pub fn updated_page(
    alloc: Global,
    corpus: &Corpus,
    trials: &[Option<Trial>],
) -> Result<Vec<u8>, AllocError> {
    let wanted = all_wanted(alloc, corpus.cases.as_slice(), trials)?;
    updated(alloc, corpus, wanted.as_slice())
}

/// What each case wants from now on.
fn all_wanted(
    alloc: Global,
    cases: &[Case],
    trials: &[Option<Trial>],
) -> Result<Vec<Vec<u8>>, AllocError>
    ensures { IfOk result (λ wanted. length wanted.items ≡ length cases.now) }
{
    let mut wanted = Vec::new(alloc);
    for number in 0..cases.len() {
        let bytes = wanted_now(cases[number].wanted, trials.get(number));
        wanted.push(Vec::from_slice(alloc, bytes)?)?;
    }
    Ok(wanted)
}

/// What a case wants from now on.
fn wanted_now<'a>(wanted: &'a [u8], trial: Option<&'a Option<Trial>>) -> &'a [u8] {
    match trial {
        Some(Some(Trial::Failed(came))) => wanted_from(wanted, came.as_slice()),
        Some(Some(Trial::Passed | Trial::Untried(_))) | Some(None) | None => wanted,
    }
}

/// What came, as far as a case can want it.
fn wanted_from<'a>(wanted: &'a [u8], came: &'a [u8]) -> &'a [u8] {
    if can_be_wanted(came) {
        return came;
    }
    let first = first_line(came);
    if can_be_wanted(first) { first } else { wanted }
}

/// The bytes up to the first line feed.
fn first_line(bytes: &[u8]) -> &[u8] {
    match bytes.iter().position(|byte| *byte == b'\n') {
        Some(place) => bytes.get(..place).unwrap_or(bytes),
        None => bytes,
    }
}
