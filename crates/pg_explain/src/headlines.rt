//! The headline of a finding: what is wrong, in one line in the words of the file.

use crate::alternatives::{beginning_with, numbers_words};
use crate::meeting::{at_gap, at_operators, at_starts};
use pg_explain_context::{Known, place_in, rule_name, written_at};
use pg_grammar_form::NodeId;
use pg_predict::ViolationKind;
use std::alloc::{AllocError, Global};

/// The headline of a finding.
pub(crate) fn headline(
    alloc: Global,
    known: &Known,
    node: NodeId,
    kind: &ViolationKind<usize>,
) -> Result<String, AllocError> {
    match kind {
        ViolationKind::LeftRecursion => recursive(alloc, known, node),
        ViolationKind::EmptyRound => empty_round(alloc, known, node),
        ViolationKind::EmptyAlternative(k) => empty_alternative(alloc, known, node, *k),
        ViolationKind::AlternativesMeet(_, _, one, other) => {
            alternatives_meet(alloc, known, node, *one, *other)
        }
        ViolationKind::AlternativeMeetsFollow(k, one, other) => {
            alternative_meets(alloc, known, *k, *one, *other)
        }
        ViolationKind::RoundMeetsFollow(one, other) => {
            round_meets(alloc, known, node, *one, *other)
        }
        ViolationKind::EmptyOperand => String::from_str(alloc, "an operand can be empty"),
        ViolationKind::OperandMeetsOperators(start) => {
            meets_operators(alloc, known, "an operand", *start)
        }
        ViolationKind::FollowMeetsOperators(start) => {
            meets_operators(alloc, known, "what follows", *start)
        }
        ViolationKind::GapMeets(start) => gap_meets(alloc, known, node, *start),
        ViolationKind::StepCostOver => String::from_str(
            alloc,
            "parsing could take over 4294967296 steps per character",
        ),
    }
}

/// For a rule that begins with itself.
fn recursive(alloc: Global, known: &Known, node: NodeId) -> Result<String, AllocError> {
    let Some(place) = place_in(known, node) else {
        return String::from_str(alloc, "the rule can begin with itself");
    };
    let name = rule_name(alloc, known, place.rule)?;
    format!(in alloc; "the rule {name} can begin with itself")
}

/// For a round of a repetition that can be empty.
fn empty_round(alloc: Global, known: &Known, node: NodeId) -> Result<String, AllocError> {
    let repetition = written_at(alloc, known, node)?;
    format!(in alloc; "a round of {repetition} can be empty")
}

/// For an alternative that can be empty.
fn empty_alternative(
    alloc: Global,
    known: &Known,
    node: NodeId,
    number: usize,
) -> Result<String, AllocError> {
    let written = written_at(alloc, known, known.alternative(node, number))?;
    format!(in alloc;
        "alternative {number}, {written}, can be empty, so later alternatives are never tried"
    )
}

/// For alternatives that meet: all that begin with one start, or those with one start and those with another.
fn alternatives_meet(
    alloc: Global,
    known: &Known,
    node: NodeId,
    one: usize,
    other: usize,
) -> Result<String, AllocError> {
    let with = at_starts(alloc, known, one, other)?;
    let with_one = beginning_with(alloc, known, node, one)?;
    if one == other {
        return all_meet(alloc, &with_one, with.as_str());
    }
    let with_other = beginning_with(alloc, known, node, other)?;
    match (with_one.as_slice(), with_other.as_slice()) {
        ([j], [k]) => all_meet(alloc, &[(*j).min(*k), (*j).max(*k)], with.as_str()),
        (these, those) => these_meet(alloc, these, those, with.as_str()),
    }
}

/// Says that all of these alternatives can begin with something.
fn all_meet(alloc: Global, numbers: &[usize], with: &str) -> Result<String, AllocError> {
    let words = numbers_words(alloc, numbers)?;
    let all = if numbers.len() > 2 { "all" } else { "both" };
    format!(in alloc; "alternatives {words} can {all} begin with {with}")
}

/// Says that some alternatives can begin with something, and so can others.
fn these_meet(
    alloc: Global,
    these: &[usize],
    those: &[usize],
    with: &str,
) -> Result<String, AllocError> {
    let word = if these.len() == 1 {
        "alternative"
    } else {
        "alternatives"
    };
    let these = numbers_words(alloc, these)?;
    let those = numbers_words(alloc, those)?;
    format!(in alloc; "{word} {these} can begin with {with}, and so can {those}")
}

/// For an alternative that meets what follows.
fn alternative_meets(
    alloc: Global,
    known: &Known,
    number: usize,
    one: usize,
    other: usize,
) -> Result<String, AllocError> {
    let with = at_starts(alloc, known, one, other)?;
    format!(in alloc; "alternative {number} and what follows can both begin with {with}")
}

/// For a round of a repetition that meets what follows.
fn round_meets(
    alloc: Global,
    known: &Known,
    node: NodeId,
    one: usize,
    other: usize,
) -> Result<String, AllocError> {
    let repetition = written_at(alloc, known, node)?;
    let with = at_starts(alloc, known, one, other)?;
    format!(in alloc; "a round of {repetition} and what follows can both begin with {with}")
}

/// For something that meets operators.
fn meets_operators(
    alloc: Global,
    known: &Known,
    who: &str,
    start: usize,
) -> Result<String, AllocError> {
    let with = at_operators(alloc, known, start)?;
    format!(in alloc; "{who} and an operator can both begin with {with}")
}

/// For a gap that meets something else.
fn gap_meets(
    alloc: Global,
    known: &Known,
    node: NodeId,
    start: usize,
) -> Result<String, AllocError> {
    let who = gap(known, node, start);
    let with = at_gap(alloc, known, start)?;
    format!(in alloc; "a gap and {who} can both begin with {with}")
}

/// What a gap meets: operators (their start has a number after those of the sets), the beginning of the term, or what follows.
pub(crate) fn gap(known: &Known, node: NodeId, start: usize) -> &'static str {
    if start >= known.sets.starts().len() {
        "an operator"
    } else if known.begins_term(node, start) {
        "an operand"
    } else {
        "what follows"
    }
}
