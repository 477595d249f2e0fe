//! Choices: only the last alternative may be empty (C3), no two alternatives may begin alike (C4), and where the last may be
//! empty, none may begin like what follows the choice (C5).
ghost use Rattle.std.specs.Prelude.{◌≡◌, ◌<◌, ◌-◌, [], length, if◌then◌else◌};
ghost use Rattle.pg_predict_conditions.specs.Judged.{ends_nullable, empty_alternative, alternative_and_follow, meeting_alternatives};
ghost use Rattle.pg_predict_conditions.specs.Questions.{found_at, asked_choice, choice_questions};

use crate::judge::Judge;
use crate::violation::ViolationKind;
use pg_grammar_form::NodeId;

/// How many questions one series of a choice has.
pub(crate) fn choice_questions(judge: &Judge, parts: &[NodeId], series: usize) -> usize
    ensures { result ≡ choice_questions judge.now parts.now series }
{
    let all_but_last = parts.len().saturating_sub(1);
    match series.checked_sub(1) {
        None => all_but_last,
        Some(j) => match parts.get(j) {
            None => all_but_last,
            Some(part) => {
                if judge.is_suspect(*part) {
                    parts.len()
                } else {
                    0
                }
            }
        },
    }
}

/// The violation of a choice that one question of a series finds, if any.
pub(crate) fn ask_choice(
    judge: &Judge,
    node: NodeId,
    parts: &[NodeId],
    series: usize,
    question: usize,
) -> Option<ViolationKind<usize>>
    requires { question < choice_questions judge.now parts.now series }
    ensures { found_at node result ≡ asked_choice judge.now node parts.now series question }
{
    match series.checked_sub(1) {
        None => empty_alternative(judge, node, parts, question),
        Some(j) => {
            if j < parts.len() {
                alternatives_meet(judge, node, parts, j, question)
            } else {
                alternative_meets_follow(judge, node, parts, question)
            }
        }
    }
}

/// The violation if an alternative before the last is nullable.
fn empty_alternative(
    judge: &Judge,
    node: NodeId,
    parts: &[NodeId],
    k: usize,
) -> Option<ViolationKind<usize>>
    requires { k < length parts.now }
    ensures { found_at node result ≡ empty_alternative judge.now node parts.now k }
{
    if judge.is_nullable(parts[k]) {
        Some(ViolationKind::EmptyAlternative(k + 1))
    } else {
        None
    }
}

/// The violation if an alternative meets a given later one.
fn alternatives_meet(
    judge: &Judge,
    node: NodeId,
    parts: &[NodeId],
    j: usize,
    k: usize,
) -> Option<ViolationKind<usize>>
    requires first { j < length parts.now }
    requires second { k < length parts.now }
    ensures { found_at node result ≡ meeting_alternatives judge.now node parts.now j k }
{
    if j >= k {
        return None;
    }
    match judge.node_meeting(parts[j], parts[k]) {
        Some(met) => Some(ViolationKind::AlternativesMeet(j + 1, k + 1, met.one, met.other)),
        None => None,
    }
}

/// The violation if an alternative before the last meets what follows the choice, and the last is nullable.
fn alternative_meets_follow(
    judge: &Judge,
    node: NodeId,
    parts: &[NodeId],
    k: usize,
) -> Option<ViolationKind<usize>>
    requires { k < length parts.now - 1 }
    ensures { found_at node result ≡ (if ends_nullable judge.now parts.now then alternative_and_follow judge.now node parts.now k else []) }
{
    if !judge.is_nullable(parts[parts.len() - 1]) {
        return None;
    }
    match judge.follow_meeting(parts[k], node) {
        Some(met) => Some(ViolationKind::AlternativeMeetsFollow(k + 1, met.one, met.other)),
        None => None,
    }
}
