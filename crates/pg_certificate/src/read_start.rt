//! JSON values to starts, and to sets of starts.

ghost use Rattle.std.specs.Prelude.{◌≡◌, ℕ, map, codes, slice_get, MatchOption};
ghost use Rattle.serde_json.specs.Data.{string};
ghost use Rattle.serde_json.specs.Find.{as_str};
ghost use Rattle.serde_json.specs.View.{view};
ghost use Rattle.pg_grammar_form.specs.declared.word_item.WordItem.{WordItem};
ghost use Rattle.pg_certificate.specs.Claims.{Each, key_count, SaysEach, SaysUnder, SaysKey, SaysWord, SaysStart};
ghost use Rattle.pg_certificate.specs.Readings.{Gives};

use crate::certificate::{ClaimedStart, ClaimedStarts};
use crate::certificate_fault::CertificateFault;
use crate::member::{are_same, key_count, read_text};
use crate::read_class::read_class;
use pg_grammar_form::{WordId, WordItem};
use pg_grammar_value::Grammar;
use pg_text::Characters;
use serde_json::Value;
use std::alloc::Global;

/// The starts under the key.
#[tactic(auto, using(crate::proofs::Parts::under_gives))]
pub fn starts_under(
    alloc: Global,
    grammar: &Grammar,
    value: &Value,
    key: &str,
) -> Result<ClaimedStarts, CertificateFault>
    ensures { Gives (SaysUnder key.now (SaysEach (SaysStart grammar.now))) (view value.now) result }
{
    match value.get(key) {
        Some(inner) => read_starts(alloc, grammar, inner),
        None => Err(CertificateFault::NotACertificate),
    }
}

fn read_starts(
    alloc: Global,
    grammar: &Grammar,
    value: &Value,
) -> Result<ClaimedStarts, CertificateFault>
    ensures { Gives (SaysEach (SaysStart grammar.now)) (view value.now) result }
{
    match value.as_array() {
        Some(list) => read_each_start(alloc, grammar, list.as_slice()),
        None => Err(CertificateFault::NotACertificate),
    }
}

fn read_each_start(
    alloc: Global,
    grammar: &Grammar,
    list: &[Value],
) -> Result<ClaimedStarts, CertificateFault>
    ensures { Gives (Each (SaysStart grammar.now)) (map view list.now) result }
{
    let mut starts = ClaimedStarts::new(alloc);
    for value in list {
        starts.push(read_start(alloc, grammar, value)?)?;
    }
    Ok(starts)
}

#[tactic(auto, using(crate::proofs::Starts::no_start))]
fn read_start(
    alloc: Global,
    grammar: &Grammar,
    value: &Value,
) -> Result<ClaimedStart, CertificateFault>
    ensures { Gives (SaysStart grammar.now) (view value.now) result }
{
    match value.as_str() {
        Some(name) => read_named_start(grammar, name),
        None => match key_count(value) {
            1 => read_lone_start(alloc, grammar, value),
            2 => read_key_start(alloc, grammar, value),
            _ => Err(CertificateFault::NotACertificate),
        },
    }
}

/// The start that this text stands for.
fn read_named_start(grammar: &Grammar, name: &str) -> Result<ClaimedStart, CertificateFault>
    ensures { Gives (SaysStart grammar.now) (string name.now) result }
{
    match name {
        "operator" => read_operator(grammar),
        "end" => Ok(ClaimedStart::End),
        _ => Err(CertificateFault::NotACertificate),
    }
}

fn read_operator(grammar: &Grammar) -> Result<ClaimedStart, CertificateFault>
    ensures { Gives (SaysStart grammar.now) (string (codes "operator")) result }
{
    match grammar.operators_item() {
        Some(_) => Ok(ClaimedStart::Operator),
        None => Err(CertificateFault::NotACertificate),
    }
}

/// The start that an object with one key stands for.
#[tactic(auto, using(crate::proofs::Starts::class_start, crate::proofs::Starts::class_refused, crate::proofs::Starts::word_start, crate::proofs::Starts::word_refused, crate::proofs::Starts::no_lone))]
fn read_lone_start(
    alloc: Global,
    grammar: &Grammar,
    value: &Value,
) -> Result<ClaimedStart, CertificateFault>
    requires text { as_str (view value.now) ≡ None }
    requires keys { key_count (view value.now) ≡ 1 }
    ensures { Gives (SaysStart grammar.now) (view value.now) result }
{
    match value.get("class") {
        Some(inner) => Ok(ClaimedStart::Class(read_class(alloc, inner)?)),
        None => match value.get("word") {
            Some(inner) => Ok(ClaimedStart::Word(read_word(alloc, grammar, inner)?)),
            None => Err(CertificateFault::NotACertificate),
        },
    }
}

/// The start that an object with two keys stands for.
#[tactic(auto, using(crate::proofs::Starts::key_start, crate::proofs::Starts::key_refused, crate::proofs::Starts::excluded_refused, crate::proofs::Starts::no_key, crate::proofs::Starts::no_excluded))]
fn read_key_start(
    alloc: Global,
    grammar: &Grammar,
    value: &Value,
) -> Result<ClaimedStart, CertificateFault>
    requires text { as_str (view value.now) ≡ None }
    requires keys { key_count (view value.now) ≡ 2 }
    ensures { Gives (SaysStart grammar.now) (view value.now) result }
{
    match (value.get("key"), value.get("not")) {
        (Some(key), Some(excluded)) => {
            let key = read_key(alloc, key)?;
            Ok(ClaimedStart::Key(key, read_class(alloc, excluded)?))
        }
        (Some(_), None) | (None, _) => Err(CertificateFault::NotACertificate),
    }
}

fn read_key(alloc: Global, value: &Value) -> Result<Characters, CertificateFault>
    ensures { Gives SaysKey (view value.now) result }
{
    let text = read_text(alloc, value)?;
    if text.is_empty() {
        return Err(CertificateFault::NotACertificate);
    }
    Ok(text)
}

fn read_word(alloc: Global, grammar: &Grammar, value: &Value) -> Result<WordId, CertificateFault>
    ensures { Gives (SaysWord grammar.now) (view value.now) result }
{
    let name = read_text(alloc, value)?;
    match place_of_word(grammar.word_items(), name.as_slice()) {
        Some(place) => Ok(WordId::new(place)),
        None => Err(CertificateFault::NotACertificate),
    }
}

/// The index of the word item with this name, if there is one.
fn place_of_word(words: &[WordItem], name: &[char]) -> Option<usize>
    ensures { MatchOption result ((w : ℕ) (item : WordItem) → slice_get words.now w ≡ Some item → ¬ (item.name ≡ name.now))
        (λ place. (item : WordItem) × (slice_get words.now place ≡ Some item) × (item.name ≡ name.now)) }
{
    for place in 0..words.len() {
        if are_same(words[place].name.as_slice(), name) {
            return Some(place);
        }
    }
    None
}
