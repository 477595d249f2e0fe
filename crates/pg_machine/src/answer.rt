//! The outcome of a run of a grammar.

use pg_grammar_value::Trail;
use pg_message::ParseError;
use pg_table::Table;
use pg_tree::Forest;

/// The result of an ok answer.
#[derive(Drop)]
pub struct Success {
    /// The place up to which the text was read, in characters from 0.
    pub place: usize,
    /// The operator table in force at that place.
    pub table: Table,
    /// The trees of the text that was read.
    pub forest: Forest,
    /// The choices on the way.
    pub trail: Trail,
}

/// One of the four answers of Parsec: ok or error, with input consumed or not.
#[derive(Drop)]
pub struct Answer {
    /// Whether input was consumed.
    pub consumed: bool,
    /// Why the parser failed, or why it read no further.
    pub error: ParseError,
    /// How many turns it took.
    pub steps: u64,
    /// The result of an ok answer; none in an error answer.
    pub success: Option<Success>,
}

/// How a run ends.
#[derive(Drop)]
pub enum Outcome {
    /// The parser answered.
    Answered(Answer),
    /// P5: it had no answer within the steps that it was allowed (ours).
    StepsUsed,
    /// P6: a round of a repetition was ok and consumed nothing, for which Text.Parsec raises an error.
    EmptyRound,
}
