//! Starts in a set, as claims.

ghost use Rattle.std.specs.Prelude.{◌≡◌, IfOk};
ghost use Rattle.pg_certificate_own.specs.Least.{claimed_start, claimed_starts, claimed_word};

use pg_certificate::{ClaimedStart, ClaimedStarts};
use pg_grammar_form::WordId;
use pg_grammar_value::Grammar;
use pg_graph_bits::BitSet;
use pg_sets_own::ListedStart;
use pg_start::StartKind;
use pg_text::Characters;
use std::alloc::{AllocError, Global};

/// The starts whose numbers are in the set, in order, as claims.
pub fn claimed_starts(
    alloc: Global,
    grammar: &Grammar,
    starts: &[ListedStart],
    set: &BitSet,
) -> Result<ClaimedStarts, AllocError>
    ensures { IfOk result (λ claimed. claimed ≡ claimed_starts grammar.now starts.now set.now) }
{
    let mut claimed = ClaimedStarts::new(alloc);
    for number in 0..starts.len() {
        if set.contains(number) {
            claimed.push(claimed_start(alloc, grammar, &starts[number])?)?;
        }
    }
    Ok(claimed)
}

/// A start as a claim.
fn claimed_start(
    alloc: Global,
    grammar: &Grammar,
    listed: &ListedStart,
) -> Result<ClaimedStart, AllocError>
    ensures { IfOk result (λ claimed. claimed ≡ claimed_start grammar.now listed.now) }
{
    match listed.start.view() {
        StartKind::Class(class) => Ok(ClaimedStart::Class(class.share()?)),
        StartKind::Key(key, excluded) => {
            let excluded = excluded.share()?;
            Ok(ClaimedStart::Key(copied(alloc, key.as_slice())?, excluded))
        }
        StartKind::Word(_, _, _) => Ok(claimed_word(grammar, listed.word)),
        StartKind::End => Ok(ClaimedStart::End),
    }
}

/// The word start with this number as a claim.
fn claimed_word(grammar: &Grammar, word: usize) -> ClaimedStart
    ensures { result ≡ claimed_word grammar.now word }
{
    if word < grammar.word_items().len() {
        ClaimedStart::Word(WordId::new(word))
    } else {
        ClaimedStart::Operator
    }
}

/// A copy of these characters.
pub fn copied(alloc: Global, characters: &[char]) -> Result<Characters, AllocError>
    ensures { IfOk result (λ copy. copy ≡ characters.now) }
{
    let characters = Vec::from_slice(alloc, characters)?;
    Ok(Characters::new(characters))
}
