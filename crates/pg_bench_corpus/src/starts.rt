//! A grammar file's grammar with another start.
//!
//! The name behind the word `start` is replaced in the file. That word names nothing in a file that spells a grammar, so it stands in the start's item alone.

ghost use Rattle.std.specs.Prelude.{◌≡◌, IfOk};
ghost use Rattle.pg_pred.specs.Offer.{Offer, offer_of};
ghost use Rattle.pg_bench_corpus.specs.Tested.{IsStarted};

use crate::tested::{Given, TestedGrammar, tested_of};
use pg_bench_grammar::BenchFault;
use pg_file_tokens::{Lexeme, Token, lex};
use pg_pred::Registry;
use pg_text::{characters_of, utf8};
use pg_tree::Meter;
use std::alloc::{AllocError, Global};

/// Why a grammar can't be used with another start. Both have lines for people, without the last line feed.
#[derive(Drop)]
pub(crate) enum Refusal {
    /// It has no such rule. That is found without loading it.
    NoRule(Vec<u8>),
    /// With that start it isn't accepted, and these are its findings; or its file can't be loaded for another reason.
    NotLoaded(Vec<u8>),
}

/// The grammar, if it starts at another rule; or why it can't be used then. The only error is that memory runs out.
pub(crate) fn started(
    alloc: Global,
    given: Given,
    rule: &str,
) -> Result<Result<TestedGrammar, Refusal>, AllocError>
    ensures { IfOk result (IsStarted (offer_of given.entry.registry.now)) }
{
    let Given {
        tested,
        bytes,
        registry,
    } = given;
    match file_with_start(alloc, tested, bytes, rule)? {
        Some(file) => loaded(alloc, file.as_bytes(), registry, tested.is_probed()),
        None => Ok(Err(Refusal::NoRule(no_rule(alloc, rule)?))),
    }
}

/// What is said where a grammar has no such rule.
fn no_rule(alloc: Global, rule: &str) -> Result<Vec<u8>, AllocError> {
    let line = format!(in alloc; "there is no rule {rule}")?;
    Ok(line.into_bytes())
}

/// The grammar that these bytes spell, or why it can't be used.
fn loaded(
    alloc: Global,
    bytes: &[u8],
    registry: &Registry,
    is_probed: bool,
) -> Result<Result<TestedGrammar, Refusal>, AllocError>
    ensures { IfOk result (IsStarted (offer_of registry.now)) }
{
    match tested_of(alloc, bytes, registry, is_probed) {
        Ok(tested) => Ok(Ok(tested)),
        Err(fault) => why_not_loaded(alloc, fault),
    }
}

/// Why a grammar can't be loaded.
fn why_not_loaded(
    alloc: Global,
    fault: BenchFault,
) -> Result<Result<TestedGrammar, Refusal>, AllocError>
    ensures { (offer : Offer) → IfOk result (IsStarted offer) }
{
    let said = said_of(alloc, &fault);
    drop(fault);
    match said {
        Ok(page) => Ok(Err(Refusal::NotLoaded(page))),
        Err(error) => Err(error),
    }
}

/// The findings of a refused grammar, or the line of another fault, without the last line feed.
fn said_of(alloc: Global, fault: &BenchFault) -> Result<Vec<u8>, AllocError> {
    match fault {
        BenchFault::Refused(refused) => {
            let mut page = Meter::new(Vec::new(alloc));
            if refused.write_findings(alloc, &mut page).is_err() {
                return Err(AllocError);
            }
            let mut page = page.into_inner();
            page.truncate(page.len().saturating_sub(1));
            Ok(page)
        }
        BenchFault::Memory => Err(AllocError),
        BenchFault::File(_)
        | BenchFault::Reader
        | BenchFault::NotUtf8
        | BenchFault::TooLong
        | BenchFault::NotATrail
        | BenchFault::NotVerified(_)
        | BenchFault::ParseError(_)
        | BenchFault::Writer => {
            let line = format!(in alloc; "{fault}")?;
            Ok(line.into_bytes())
        }
    }
}

/// The text of a grammar file with another start. None if the grammar has no such rule.
fn file_with_start(
    alloc: Global,
    tested: &TestedGrammar,
    bytes: &[u8],
    rule: &str,
) -> Result<Option<String>, AllocError> {
    let name = characters_of(alloc, rule)?;
    if tested.grammar().rule(name.as_slice()).is_none() {
        return Ok(None);
    }
    let Ok(text) = str::from_utf8(bytes) else {
        return Ok(None);
    };
    let characters = characters_of(alloc, text)?;
    let lexemes = lex(alloc, characters.as_slice())?;
    match start_of(lexemes.as_slice()) {
        Some((place, size)) => replaced(alloc, characters.as_slice(), place, size, rule),
        None => Ok(None),
    }
}

/// Where the name of the start stands, and how many characters it has.
fn start_of(lexemes: &[Lexeme]) -> Option<(usize, usize)> {
    let mut is_next = false;
    for lexeme in lexemes {
        if is_next {
            return named(lexeme);
        }
        is_next = lexeme.token.is_word("start");
    }
    None
}

/// Where a name stands, and how many characters it has.
fn named(lexeme: &Lexeme) -> Option<(usize, usize)> {
    match &lexeme.token {
        Token::Name(name) => Some((lexeme.place, name.len())),
        Token::Number(_) | Token::Literal(_) | Token::Mark(_) | Token::WrongLiteral | Token::Bad =>
            None,
    }
}

/// The text of these characters with others in the place of some. None if there aren't as many.
fn replaced(
    alloc: Global,
    characters: &[char],
    place: usize,
    size: usize,
    by: &str,
) -> Result<Option<String>, AllocError> {
    let (Some(before), Some(after)) = (
        characters.get(..place),
        characters.get(place.saturating_add(size)..),
    ) else {
        return Ok(None);
    };
    let mut text = utf8(alloc, before)?;
    text.push_str(by)?;
    for c in after {
        text.push(*c)?;
    }
    Ok(Some(text))
}
