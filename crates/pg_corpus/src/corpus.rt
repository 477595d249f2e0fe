//! A corpus file: its comments and its cases.
//!
//! All that is read is lent from the file's bytes, and the parts of a corpus, joined, are the file again. So printing it with something else in the place of
//! what is wanted keeps all other bytes.

ghost use Rattle.std.specs.Prelude.{◌≡◌, ◌<◌, ◌≤◌, ◌++◌, ℕ, List, All, length, vec_len, IfOk, OnOk};
ghost use Rattle.std.specs.Global.{Vec};
ghost use Rattle.std.specs.List.{flat_map};
ghost use Rattle.std.specs.Str.{IsUtf8};
ghost use Rattle.pg_corpus.specs.Names.{AreApart};
ghost use Rattle.pg_corpus.specs.Cases.{IsCase, IsWrittenAs, AreWanted, case_bytes, with_wanted, updated_cases};

use crate::case::{Case, read_case};
use crate::fault::{CorpusError, CorpusFault, FaultKind};
use crate::lines::{Part, cut};
use crate::names::second_of_a_name;
use crate::places::{fault_behind, line_feeds};
use std::alloc::{AllocError, Global};

/// The most bytes of a corpus file.
pub const LIMIT: usize = 16_777_216;

/// A corpus file, read (ours). All slices are parts of the file.
#[derive(Drop)]
pub struct Corpus<'a> {
    /// The comments and blank lines before the first case.
    pub head: &'a [u8],
    /// The cases, in order. No two have the same name.
    pub cases: Vec<Case<'a>>,
}

/// Reads a corpus file (ours). Each fault has its position: first that the file is too long, then that it isn't UTF-8, then the first fault of a case from the
/// beginning on, then the first name that an earlier case has. A file without cases is a corpus too.
pub fn read_corpus<'a>(alloc: Global, bytes: &'a [u8]) -> Result<Corpus<'a>, CorpusError>
    ensures written { IfOk result (IsWrittenAs bytes.now) }
    ensures apart { IfOk result (λ corpus. AreApart corpus.cases.items) }
    ensures short { OnOk result (length bytes.now ≤ LIMIT) }
    ensures utf8 { OnOk result (IsUtf8 bytes.now) }
{
    if bytes.len() > LIMIT {
        return Err(fault_behind(FaultKind::TooLong, bytes, LIMIT));
    }
    if std::str::from_utf8(bytes).is_err() {
        return Err(fault_behind(FaultKind::NotUtf8, bytes, bytes.len()));
    }
    let (head, rest) = cut(bytes, Part::Around);
    let cases = read_cases(alloc, bytes, rest, line_feeds(head))?;
    with_names(alloc, Corpus { head, cases })
}

/// Reads the cases that the rest of a file has, which begins behind so many lines.
#[tactic(auto, using(crate::proofs::Reading::no_case, crate::proofs::Reading::one_case, crate::proofs::Reading::all_read))]
fn read_cases<'a>(
    alloc: Global,
    all: &'a [u8],
    rest: &'a [u8],
    lines: u32,
) -> Result<Vec<Case<'a>>, CorpusError>
    ensures joined { IfOk result (λ cases. rest.now ≡ flat_map case_bytes cases.items) }
    ensures cases { IfOk result (λ cases. All IsCase cases.items) }
{
    let mut cases = Vec::new(alloc);
    let mut left = rest;
    let mut line = lines.saturating_add(1);
    let mut otherwise = FaultKind::BeforeFirst;
    while !left.is_empty() {
        let (case, behind) = next_case(all, left, line, otherwise)?;
        line = line.saturating_add(line_feeds(&left[..left.len() - behind.len()]));
        otherwise = FaultKind::Behind;
        cases.push(case)?;
        left = behind;
    }
    Ok(cases)
}

/// Reads the case that begins here, and returns the rest of the file too.
fn next_case<'a>(
    all: &'a [u8],
    left: &'a [u8],
    line: u32,
    otherwise: FaultKind,
) -> Result<(Case<'a>, &'a [u8]), CorpusError>
    requires { 0 < length left.now }
    ensures case { IfOk result (λ read. IsCase read.0) }
    ensures joined { IfOk result (λ read. left.now ≡ case_bytes read.0 ++ read.1.now) }
    ensures shorter { IfOk result (λ read. length read.1.now < length left.now) }
{
    match read_case(left, line, otherwise) {
        Ok(read) => Ok(read),
        Err(refusal) => {
            let place = all
                .len()
                .saturating_sub(left.len())
                .saturating_add(refusal.place);
            Err(fault_behind(refusal.kind, all, place))
        }
    }
}

/// The corpus, if no two of its cases have the same name.
fn with_names<'a>(alloc: Global, corpus: Corpus<'a>) -> Result<Corpus<'a>, CorpusError>
    ensures same { IfOk result (λ same. same ≡ corpus.entry) }
    ensures apart { IfOk result (λ same. AreApart same.cases.items) }
{
    match second_of_a_name(alloc, corpus.cases.as_slice()) {
        Ok(None) => Ok(corpus),
        Ok(Some(position)) => Err(CorpusError::Fault(CorpusFault {
            kind: FaultKind::NameTwice,
            position,
        })),
        Err(_) => Err(CorpusError::Memory),
    }
}

/// The bytes of the corpus with others in the place of what each case wants, in order (ours). They have to be what a case can want (`can_be_wanted`), or what
/// is printed is no corpus.
pub fn updated(alloc: Global, corpus: &Corpus, wanted: &[Vec<u8>]) -> Result<Vec<u8>, AllocError>
    requires { length wanted.now ≡ vec_len corpus.now.cases }
    ensures { IfOk result (λ bytes. bytes.items ≡ corpus.now.head.now ++ updated_cases corpus.now.cases.items wanted.now) }
{
    let mut bytes = Vec::from_slice(alloc, corpus.head)?;
    let cases = corpus.cases.as_slice();
    for number in 0..cases.len() {
        push_case(&mut bytes, cases[number], wanted[number].as_slice())?;
    }
    Ok(bytes)
}

/// Appends a case with something else in the place of what is wanted.
fn push_case(bytes: &mut Vec<u8>, case: Case, wanted: &[u8]) -> Result<(), AllocError>
    ensures { OnOk result (bytes.new.items ≡ bytes.old.items ++ with_wanted case.entry wanted.now) }
{
    bytes.extend_from_slice(case.before)?;
    bytes.extend_from_slice(wanted)?;
    bytes.extend_from_slice(case.after)
}

/// A corpus with its own wanted texts in their places is the file that it was read from (ours; a law, proved and never called).
#[tactic(auto, using(crate::proofs::Updating::updated_same))]
pub fn updating_with_the_same()
    ensures { (bytes : List ℕ) (corpus : Corpus) (ws : List (Vec ℕ)) → IsWrittenAs bytes corpus → AreWanted corpus.cases.items ws
        → corpus.head.now ++ updated_cases corpus.cases.items ws ≡ bytes }
{}
