//! Runs of a checked grammar over whole texts.
//!
//! A run is a probe with the greatest number of steps that can be counted: by the law of `laws.rt` it ends with an answer, since the step
//! cost of a checked grammar is within a limit, and so is the length of a text. After an ok answer the text must end.

ghost use Rattle.std.specs.Prelude.{◌≡◌, ◌≤◌, ◌+◌, ◌*◌, length, None, IfOk, OnOk, IfSome, IfNone};
ghost use Rattle.pg_grammar_value.specs.Fits.{Fits};
ghost use Rattle.pg_pred.specs.Offer.{offer_of};
ghost use Rattle.pg_table.specs.Tables.{ComesFrom};
ghost use Rattle.pg_text.specs.Position.{position_of};
ghost use Rattle.pg_predict_costs.specs.StepCost.{IsStepCost};
ghost use Rattle.pg_predict.specs.Conditions.{cost_limit};
ghost use Rattle.pg_derive.specs.Accepted.{Accepts};
ghost use Rattle.pg_derive.specs.LeastSets.{node_sets};
ghost use Rattle.pg_derive.specs.PredictiveLaws.{LosesNoAlternative, EachRoundConsumes, EachLinkConsumes};
ghost use Rattle.pg_derive_backtracking.specs.Backtracking.{StartReadsNothingTwice};
ghost use Rattle.pg_language.specs.Answers.{given};
ghost use Rattle.pg_language.specs.Errors.{merge, without_position};
ghost use Rattle.pg_language.specs.WholeTexts.{at_end};
ghost use Rattle.pg_language.specs.declared.reading.Reading.TheVariants.{Library};
ghost use Rattle.pg_message_tape.specs.Messages.{end_error};
ghost use Rattle.pg_machine.specs.CheckedRuns.{IsTextAnswer, IsOnlyDerivation, IsUnderivable, steps_to_end};
ghost use Rattle.pg_machine.specs.Outcomes.{outcome_of};

use crate::answer::{Answer, Outcome};
use crate::laws::accepted_probes_answer;
use crate::probing::probe;
use crate::treeless::probe_treeless;
use pg_derive_bound::accepted_starts_come_to_answers;
use pg_grammar_form::Around;
use pg_grammar_value::Grammar;
use pg_language::Reading;
use pg_machine_turns::error_at_end;
use pg_message::ParseError;
use pg_pred::Registry;
use pg_predict::Checked;
use pg_table::Table;
use pg_text::Text;
use std::alloc::{AllocError, Global};

/// Runs the start rule over the whole text, under the table, in the library's reading, until there is an answer: ok, with the one derivation of the
/// text, or an error, and then nothing derives it. The answer's steps are the turns that it took, with those for the end of the text, or the
/// greatest number if they are more: `2m - 1` for `m` nodes. They are no more than the grammar's step cost for each character of the text, and for
/// its end. On the way no choice loses an alternative to consumed input, each round of a repetition and each link of a chain consumes, and nothing is
/// read twice: after a place that a `try` gave back nothing is consumed. The registry must fit, and the table must come from the grammar.
pub fn run(
    alloc: Global,
    checked: &Checked,
    text: &Text,
    table: &Table,
    registry: &Registry,
) -> Result<Answer, AllocError>
    requires fits { Fits (offer_of registry.now) checked.now.grammar }
    requires table { ComesFrom checked.now.grammar table.now }
    ensures answer { IfOk result (IsTextAnswer (given Library checked.now.grammar text.now) table.now) }
    ensures steps { IfOk result (λ a. a.steps ≤ checked.now.cost * (length text.now + 1)) }
    ensures derived { IfOk result (λ a. IfSome a.success (IsOnlyDerivation checked.now.grammar text.now table.now)) }
    ensures refused { IfOk result (λ a. IfNone a.success (IsUnderivable checked.now.grammar text.now table.now)) }
    ensures choices { LosesNoAlternative (given Library checked.now.grammar text.now) (node_sets checked.now.grammar checked.now.sets) }
    ensures rounds { EachRoundConsumes (given Library checked.now.grammar text.now) }
    ensures links { EachLinkConsumes (given Library checked.now.grammar text.now) }
    ensures once { StartReadsNothingTwice (given Library checked.now.grammar text.now) }
{
    let grammar = accepted(checked, text);
    accepted_probes_answer();
    match probe(
        alloc,
        grammar,
        text,
        table,
        registry,
        u64::MAX,
        Reading::Library,
    )? {
        Outcome::Answered(answer) => whole_answer(alloc, text, answer),
        Outcome::StepsUsed | Outcome::EmptyRound => unreachable!(),
    }
}

/// The answer of [`run`], if it is an error. None says nothing of the text: it is derived, and has to be run for its trees. No tree is made here, so that a text that
/// is refused takes less time. The caller ensures the same as for `run`.
pub fn refusal(
    alloc: Global,
    checked: &Checked,
    text: &Text,
    table: &Table,
    registry: &Registry,
) -> Result<Option<Answer>, AllocError>
    requires fits { Fits (offer_of registry.now) checked.now.grammar }
    requires table { ComesFrom checked.now.grammar table.now }
    ensures answer { IfOk result (λ found. IfSome found (IsTextAnswer (given Library checked.now.grammar text.now) table.now)) }
    ensures error { IfOk result (λ found. IfSome found (λ a. a.success ≡ None)) }
{
    let grammar = accepted(checked, text);
    accepted_starts_come_to_answers();
    let skip = Around::Skip;
    match probe_treeless(alloc, grammar, text, table, registry, &skip)? {
        Outcome::Answered(answer) => error_alone(alloc, text, answer),
        Outcome::StepsUsed | Outcome::EmptyRound => Ok(None),
    }
}

/// The answer for the whole text, if that is an error.
fn error_alone(alloc: Global, text: &Text, answer: Answer) -> Result<Option<Answer>, AllocError>
    requires { answer.error.position ≡ position_of text.now answer.error.place }
    ensures outcome { IfOk result (λ found. IfSome found (λ whole. outcome_of whole ≡ at_end text.now (outcome_of answer))) }
    ensures position { IfOk result (λ found. IfSome found (λ whole. whole.error.position ≡ position_of text.now whole.error.place)) }
    ensures steps { IfOk result (λ found. IfSome found (λ whole. whole.steps ≡ steps_to_end (outcome_of answer) answer.steps)) }
    ensures error { IfOk result (λ found. IfSome found (λ whole. whole.success ≡ None)) }
{
    let whole = whole_answer(alloc, text, answer)?;
    if whole.success.is_some() {
        drop(whole);
        return Ok(None);
    }
    Ok(Some(whole))
}

/// The grammar, with all known facts about it and the text.
fn accepted<'a>(checked: &'a Checked, text: &Text) -> &'a Grammar
    ensures grammar { result.now ≡ checked.now.grammar }
    ensures accepts { Accepts (given Library checked.now.grammar text.now) checked.now.sets }
    ensures cost { IsStepCost checked.now.grammar checked.now.sets.nullable checked.now.cost }
    ensures within { checked.now.cost ≤ cost_limit }
    ensures short { length text.now ≤ 1048576 }
{
    let grammar = checked.grammar();
    // These are called for their contracts: facts about the grammar and the text.
    let _nodes = grammar.nodes();
    let _characters = text.characters();
    grammar
}

/// The answer for the whole text, which must end where the answer ends.
fn whole_answer(alloc: Global, text: &Text, answer: Answer) -> Result<Answer, AllocError>
    requires { answer.error.position ≡ position_of text.now answer.error.place }
    ensures outcome { IfOk result (λ whole. outcome_of whole ≡ at_end text.now (outcome_of answer)) }
    ensures position { IfOk result (λ whole. whole.error.position ≡ position_of text.now whole.error.place) }
    ensures steps { IfOk result (λ whole. whole.steps ≡ steps_to_end (outcome_of answer) answer.steps) }
{
    let Answer {
        consumed,
        mut error,
        steps,
        success,
    } = answer;
    let Some(success) = success else {
        return Ok(Answer {
            consumed,
            error,
            steps,
            success: None,
        });
    };
    say_end(alloc, text, success.place, &mut error)?;
    // The end is one more node: it is entered, and its answer is passed on.
    let steps = steps.saturating_add(2);
    let ends = success.place == text.len();
    let success = if ends { Some(success) } else { None };
    Ok(Answer {
        consumed,
        error,
        steps,
        success,
    })
}

/// Merges the error of a text that has to end at the place into the error of what was read before.
fn say_end(
    alloc: Global,
    text: &Text,
    place: usize,
    error: &mut ParseError,
) -> Result<(), AllocError>
    requires { error.old.position ≡ position_of text.now error.old.place }
    ensures error { OnOk result (without_position error.new ≡ merge (without_position error.old) (end_error text.now place)) }
    ensures position { OnOk result (error.new.position ≡ position_of text.now error.new.place) }
{
    let said = error_at_end(alloc, text, place)?;
    error.merge(said)
}
