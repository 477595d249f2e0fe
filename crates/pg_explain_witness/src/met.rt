//! The starts that a finding names, and the beginnings of texts that show it.

use crate::common::{common_character, common_of_class};
use pg_class::Class;
use pg_explain_samples::{Basis, character_of};
use pg_predict::ViolationKind;
use pg_sets_own::ListedStart;
use pg_start::StartKind;

/// The first character of the guides for a finding, if it has one.
pub(crate) fn character_of_kind(basis: &Basis<'_>, kind: &ViolationKind<usize>) -> Option<char> {
    match kind {
        ViolationKind::AlternativesMeet(_, _, one, other)
        | ViolationKind::AlternativeMeetsFollow(_, one, other)
        | ViolationKind::RoundMeetsFollow(one, other) => shared(basis, *one, *other),
        ViolationKind::OperandMeetsOperators(start) | ViolationKind::FollowMeetsOperators(start) =>
            shared(basis, *start, basis.sets.starts().len()),
        ViolationKind::GapMeets(start) => of_gap(basis, *start),
        ViolationKind::LeftRecursion
        | ViolationKind::EmptyRound
        | ViolationKind::EmptyAlternative(_)
        | ViolationKind::EmptyOperand
        | ViolationKind::StepCostOver => None,
    }
}

/// The start with this number: one of the sets, or, after the last of those, the start of operators.
fn start_of<'g>(basis: &'g Basis<'g>, number: usize) -> Option<&'g ListedStart> {
    match basis.sets.starts().get(number) {
        Some(listed) => Some(listed),
        None => match &basis.operators {
            Some(operators) => Some(&operators.operator),
            None => None,
        },
    }
}

/// A character that begins both starts.
fn shared(basis: &Basis<'_>, one: usize, other: usize) -> Option<char> {
    let one = start_of(basis, one)?;
    let other = start_of(basis, other)?;
    common_character(&one.start, &other.start)
}

/// A character that begins the start and is in the gap.
fn of_gap(basis: &Basis<'_>, start: usize) -> Option<char> {
    let listed = start_of(basis, start)?;
    let operators = basis.operators.as_ref()?;
    match operators.gap.view() {
        StartKind::Class(class) => common_of_class(&listed.start, class),
        StartKind::Key(_, _) | StartKind::Word(_, _, _) | StartKind::End => None,
    }
}

/// The key of the start, and the characters that may not follow it.
pub(crate) fn key_at<'g>(basis: &'g Basis<'g>, number: usize) -> Option<(&'g [char], &'g Class)> {
    match start_of(basis, number)?.start.view() {
        StartKind::Key(key, excluded) => Some((key.as_slice(), excluded)),
        StartKind::Class(_) | StartKind::Word(_, _, _) | StartKind::End => None,
    }
}

/// A character that continues a word of the start and isn't in the class.
pub(crate) fn next_of_word(basis: &Basis<'_>, number: usize, excluded: &Class) -> Option<char> {
    match start_of(basis, number)?.start.view() {
        StartKind::Word(_, rest, _) => character_of(rest, Some(excluded), 0),
        StartKind::Class(_) | StartKind::Key(_, _) | StartKind::End => None,
    }
}
