//! Whether a node loses a derivation as noted, asked once more of the derivation's trail and of the machine so that it is proved.

ghost use Rattle.std.specs.Prelude.{◌≡◌, true, slice_get, option_copied, IfOk, IfSome};
ghost use Rattle.pg_pred.specs.Offer.{offer_of};
ghost use Rattle.pg_grammar_value.specs.Fits.{Fits};
ghost use Rattle.pg_language.specs.Answers.{given};
ghost use Rattle.pg_language.specs.declared.reading.Reading.TheVariants.{Library};
ghost use Rattle.pg_explain_witness.specs.Losing.{BeginsRounds, ChoiceLoses, ExpressionLoses, ItemsPart, LinksLose, LosesAt, PartAt, RoundsLose, RoundsPart};

use crate::answering::{Link, Manner, answers_otherwise, answers_so, link_takes, table_at};
use crate::going::{Rounds, has_round, item_at, rounds_left};
use crate::judging::Case;
use crate::notes::{Lost, Next};
use crate::trails::same_item;
use pg_grammar_form::{Form, Node, NodeId};
use pg_grammar_value::{Grammar, Trail, TrailItem};
use std::alloc::{AllocError, Global};

/// Whether the finding's node loses the derivation with this trail as noted.
pub(crate) fn is_lost(
    alloc: Global,
    case: &Case<'_>,
    trail: &Trail,
    lost: &Lost,
) -> Result<bool, AllocError>
    requires { Fits (offer_of case.now.registry.now) case.now.grammar.now }
    ensures { IfOk result (λ is_lost. is_lost ≡ true →
        LosesAt (given Library case.now.grammar.now case.now.text.now) case.now.table.now trail.now case.now.node lost.now.place) }
{
    match form_of(case.grammar, case.node) {
        Some(Form::Choice(_)) => by_choice(alloc, case, trail, lost),
        Some(Form::Many(_)) => by_rounds(alloc, case, trail, lost),
        Some(Form::Chain(_, _, _, _)) => by_links(alloc, case, trail, lost),
        Some(Form::Expression(_, _)) => by_expression(alloc, case, trail, lost),
        Some(Form::Leaf(_) | Form::Seq(_) | Form::Rule(_) | Form::Around(_, _)) | None => Ok(false),
    }
}

/// The form at the node.
pub(crate) fn form_of(grammar: &Grammar, node: NodeId) -> Option<&Node>
    ensures { option_copied result ≡ slice_get grammar.now.nodes node }
{
    grammar.nodes().get(node.index())
}

/// Whether the node is a choice that loses the derivation as noted.
fn by_choice(alloc: Global, case: &Case<'_>, trail: &Trail, lost: &Lost) -> Result<bool, AllocError>
    requires { Fits (offer_of case.now.registry.now) case.now.grammar.now }
    ensures { IfOk result (λ is_lost. is_lost ≡ true →
        ChoiceLoses (given Library case.now.grammar.now case.now.text.now) case.now.table.now trail.now case.now.node lost.now.place) }
{
    let Next::Alternative(answering) = lost.ran else {
        return Ok(false);
    };
    let Some(number) = answering.checked_sub(1) else {
        return Ok(false);
    };
    let Some(Form::Choice(parts)) = form_of(case.grammar, case.node) else {
        return Ok(false);
    };
    let Some(alternative) = parts.as_slice().get(number) else {
        return Ok(false);
    };
    let Some(TrailItem::Alt(had)) = item_at(alloc, case, trail, lost.place, lost.derived_turns)?
    else {
        return Ok(false);
    };
    if answering >= *had {
        return Ok(false);
    }
    let Some(under) = table_at(alloc, case, case.node, lost.place, lost.ran_turns)? else {
        return Ok(false);
    };
    answers_so(
        alloc,
        case,
        *alternative,
        lost.place,
        under,
        Manner::ForGood,
    )
}

/// Whether the node is a repetition that loses the derivation as noted.
fn by_rounds(alloc: Global, case: &Case<'_>, trail: &Trail, lost: &Lost) -> Result<bool, AllocError>
    requires { Fits (offer_of case.now.registry.now) case.now.grammar.now }
    ensures { IfOk result (λ is_lost. is_lost ≡ true →
        RoundsLose (given Library case.now.grammar.now case.now.text.now) case.now.table.now trail.now case.now.node lost.now.place) }
{
    let Some(Form::Many(part)) = form_of(case.grammar, case.node) else {
        return Ok(false);
    };
    let rounds = Rounds {
        part: *part,
        place: lost.place,
        turns: lost.derived_turns,
    };
    let Some(0) = rounds_left(alloc, case, trail, rounds)? else {
        return Ok(false);
    };
    let Some(under) = table_at(alloc, case, *part, lost.place, lost.ran_turns)? else {
        return Ok(false);
    };
    answers_so(alloc, case, *part, lost.place, under, Manner::Taking)
}

/// Whether the node is a chain that loses the derivation as noted.
fn by_links(alloc: Global, case: &Case<'_>, trail: &Trail, lost: &Lost) -> Result<bool, AllocError>
    requires { Fits (offer_of case.now.registry.now) case.now.grammar.now }
    ensures { IfOk result (λ is_lost. is_lost ≡ true →
        LinksLose (given Library case.now.grammar.now case.now.text.now) case.now.table.now trail.now case.now.node lost.now.place) }
{
    let Some(Form::Chain(_, _, operand, separator)) = form_of(case.grammar, case.node) else {
        return Ok(false);
    };
    let links = Rounds {
        part: *separator,
        place: lost.place,
        turns: lost.derived_turns,
    };
    let Some(0) = rounds_left(alloc, case, trail, links)? else {
        return Ok(false);
    };
    let Some(under) = table_at(alloc, case, *separator, lost.place, lost.ran_turns)? else {
        return Ok(false);
    };
    let link = Link {
        separator: *separator,
        operand: *operand,
    };
    link_takes(alloc, case, link, lost.place, &under)
}

/// Whether the node is an expression that loses the derivation as noted.
fn by_expression(
    alloc: Global,
    case: &Case<'_>,
    trail: &Trail,
    lost: &Lost,
) -> Result<bool, AllocError>
    requires { Fits (offer_of case.now.registry.now) case.now.grammar.now }
    ensures { IfOk result (λ is_lost. is_lost ≡ true →
        ExpressionLoses (given Library case.now.grammar.now case.now.text.now) case.now.table.now trail.now case.now.node) }
{
    let Some(item) = item_at(alloc, case, trail, lost.entered, lost.derived_turns)? else {
        return Ok(false);
    };
    let Some(under) = table_at(alloc, case, case.node, lost.entered, lost.ran_turns)? else {
        return Ok(false);
    };
    answers_otherwise(alloc, case, case.node, lost.entered, under, item)
}

/// Whether the derivations with the two trails part at the finding's node as noted.
pub(crate) fn are_parted(
    alloc: Global,
    case: &Case<'_>,
    one: &Trail,
    other: &Trail,
    parted: &Lost,
) -> Result<bool, AllocError>
    ensures { IfOk result (λ are_parted. are_parted ≡ true →
        PartAt (given Library case.now.grammar.now case.now.text.now) case.now.table.now one.now other.now case.now.node) }
{
    match form_of(case.grammar, case.node) {
        Some(Form::Choice(_) | Form::Expression(_, _)) => {
            have_two_items(alloc, case, one, other, parted)
        }
        Some(Form::Many(_) | Form::Chain(_, _, _, _)) => have_two_ends(
            alloc, case, one, other, parted,
        ),
        Some(Form::Leaf(_) | Form::Seq(_) | Form::Rule(_) | Form::Around(_, _)) | None => Ok(false),
    }
}

/// Whether the derivations with the two trails have different items for the node as noted.
fn have_two_items(
    alloc: Global,
    case: &Case<'_>,
    one: &Trail,
    other: &Trail,
    parted: &Lost,
) -> Result<bool, AllocError>
    ensures { IfOk result (λ are_parted. are_parted ≡ true →
        ItemsPart (given Library case.now.grammar.now case.now.text.now) case.now.table.now one.now other.now case.now.node) }
{
    let Some(item) = item_at(alloc, case, one, parted.entered, parted.derived_turns)? else {
        return Ok(false);
    };
    let Some(other_item) = item_at(alloc, case, other, parted.entered, parted.ran_turns)? else {
        return Ok(false);
    };
    if same_item(item, other_item) {
        Ok(false)
    } else {
        Ok(true)
    }
}

/// Whether the derivation with the one trail ends the rounds of the node where the other has a round, as noted.
fn have_two_ends(
    alloc: Global,
    case: &Case<'_>,
    one: &Trail,
    other: &Trail,
    parted: &Lost,
) -> Result<bool, AllocError>
    ensures { IfOk result (λ are_parted. are_parted ≡ true →
        RoundsPart (given Library case.now.grammar.now case.now.text.now) case.now.table.now one.now other.now case.now.node) }
{
    let Some(part) = round_part(case.grammar, case.node) else {
        return Ok(false);
    };
    let ended = Rounds {
        part,
        place: parted.place,
        turns: parted.derived_turns,
    };
    let Some(0) = rounds_left(alloc, case, one, ended)? else {
        return Ok(false);
    };
    let had = Rounds {
        part,
        place: parted.place,
        turns: parted.ran_turns,
    };
    has_round(alloc, case, other, had)
}

/// The part that begins each round of the node, if it has rounds.
fn round_part(grammar: &Grammar, node: NodeId) -> Option<NodeId>
    ensures { IfSome result (BeginsRounds grammar.now node) }
{
    match form_of(grammar, node) {
        Some(Form::Many(part)) => Some(*part),
        Some(Form::Chain(_, _, _, separator)) => Some(*separator),
        Some(
            Form::Leaf(_)
            | Form::Seq(_)
            | Form::Choice(_)
            | Form::Rule(_)
            | Form::Expression(_, _)
            | Form::Around(_, _),
        )
        | None => None,
    }
}
