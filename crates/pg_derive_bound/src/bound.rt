//! How many nodes an answer enters at most, by the step cost of the grammar: a node takes two steps, one when it is entered
//! and one when its answer is passed on.
//!
//! Laws of accepted grammars use their least sets; laws of predictive ones any sets that show them to be so. A law is a function that
//! does nothing when it runs: its clause is the law, and a caller gets the clause.

ghost use Rattle.pg_derive_bound.specs.Bound.{PredictiveStartsAreAnsweredInTime, PredictiveTextsAreAnsweredInTime, AcceptedGrammarsHaveAStepCost, AcceptedStartsAreAnsweredInTime, AcceptedTextsAreAnsweredInTime, AcceptedStartsComeToAnswers, AcceptedRunsTakeFewSteps};

/// The law that the start rule of a predictive grammar answers a text of n characters within k * (n + 1) steps, where k is
/// the grammar's step cost: ok, with an error, or after a `try` gave input back.
pub fn predictive_starts_are_answered_in_time()
    ensures { PredictiveStartsAreAnsweredInTime }
{}

/// The law that this also holds for the start rule with the end of the text after it.
pub fn predictive_texts_are_answered_in_time()
    ensures { PredictiveTextsAreAnsweredInTime }
{}

/// The law that an accepted grammar has a step cost.
pub fn accepted_grammars_have_a_step_cost()
    ensures { AcceptedGrammarsHaveAStepCost }
{}

/// The law that the start rule of an accepted grammar answers a text of n characters within n + 1 times its step cost.
pub fn accepted_starts_are_answered_in_time()
    ensures { AcceptedStartsAreAnsweredInTime }
{}

/// The law that this also holds for the start rule with the end of the text after it.
pub fn accepted_texts_are_answered_in_time()
    ensures { AcceptedTextsAreAnsweredInTime }
{}

/// The law that a run of the start rule that may take at least that many steps reaches an answer: it neither uses them up nor
/// meets a round of a repetition that consumes nothing.
pub fn accepted_starts_come_to_answers()
    ensures { AcceptedStartsComeToAnswers }
{}

/// The law that the number which `step_cost` (`pg_predict_costs`) gives for such a grammar bounds the steps that `run` counts (`pg_machine`):
/// both stop at the greatest number.
pub fn accepted_runs_take_few_steps()
    ensures { AcceptedRunsTakeFewSteps }
{}
