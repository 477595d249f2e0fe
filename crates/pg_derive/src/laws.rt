//! Laws of every answer, beyond the single cases of the relation.
//!
//! A law is a function that does nothing when it runs: its clause is the law, and a caller gets the clause.

ghost use Rattle.pg_derive.specs.Chains.{ChainsAreOperandsAndRests};
ghost use Rattle.pg_derive.specs.Laws.{OutcomesAreUnique, OkAnswersAreDerivations, ErrorsStandInText};

/// The law that a node has at most one outcome at a place, under a table and in a reading, and enters one number of nodes.
pub fn outcomes_are_unique()
    ensures { OutcomesAreUnique }
{}

/// The law that an ok answer is a derivation up to its place and table, with its forest and its trail.
pub fn ok_answers_are_derivations()
    ensures { OkAnswersAreDerivations }
{}

/// The law that positions don't affect merging and labelling: errors with positions in a text are merged and
/// labelled as the errors of the relation, which have none.
pub fn errors_stand_in_text()
    ensures { ErrorsStandInText }
{}

/// The law that a chain of a grammar answers as its operand followed by `rest`, where `rest` is
/// `choice(seq(separator, operand, rest), seq())`, and the other way round: with the same kind of answer, place and table, and
/// the same error with the same messages. The chain folds the forests that the sequence joins, and its trail counts the
/// rounds for which the trail of `rest` notes the alternatives.
pub fn chains_are_operands_and_rests()
    ensures { ChainsAreOperandsAndRests }
{}
