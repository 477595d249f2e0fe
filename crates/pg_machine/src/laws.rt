//! Laws on probes of accepted grammars.
//!
//! A law is a function that does nothing when it runs: its clause is the law, and a caller gets the clause.

ghost use Rattle.pg_machine.specs.Laws.{AcceptedProbesAnswer, ReadingsHaveOneOutcome, ReadingsComeToOneAnswer};

use pg_derive_bound::accepted_starts_come_to_answers;

/// The law that `probe` of an accepted grammar ends with an answer if it may take at least the grammar's step cost
/// for each of n + 1 characters: never with P5, and never with P6.
pub fn accepted_probes_answer()
    ensures { AcceptedProbesAnswer }
{
    accepted_starts_come_to_answers();
}

/// The law that a probe of an accepted grammar has one outcome in both readings of choice, however many steps it may take: the same answer, with its
/// trees, its trail, its error and its steps, or steps used up in both.
pub fn readings_have_one_outcome()
    ensures { ReadingsHaveOneOutcome }
{}

/// The law that both readings come to one answer, after as many steps, if the probe may take at least the grammar's step cost for each of n + 1
/// characters.
pub fn readings_come_to_one_answer()
    ensures { ReadingsComeToOneAnswer }
{
    accepted_probes_answer();
}
