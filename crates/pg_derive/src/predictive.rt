//! Laws of predictive grammars, which some sets of their nodes show to be so: such a grammar derives a text in one way at most, and
//! a parser that commits to what it meets finds that way.
//!
//! The sets need not be the least ones, only closed (`specs/Predictive.antt`). A law is a function that does nothing when it
//! runs: its clause is the law, and a caller gets the clause.

ghost use Rattle.pg_derive.specs.PredictiveLaws.{DerivationsAreAnswers, DerivationsAreUnique, AnswersExist, NoAlternativeIsLost, RoundsConsume, LinksConsume, ReadingsAgree};

/// The law that a derivation of a node is the node's answer, if it ends before something that can follow the node.
pub fn derivations_are_answers()
    ensures { DerivationsAreAnswers }
{}

/// The law that a node has at most one such derivation from one place and table.
pub fn derivations_are_unique()
    ensures { DerivationsAreUnique }
{}

/// The law that each node has an answer at each place: no run goes on without an end, and no repetition meets a round that
/// consumed nothing.
pub fn answers_exist()
    ensures { AnswersExist }
{}

/// The law that no choice loses an alternative to consumed input: if one fails after consumed input, no later one
/// derives anything that ends before what can follow the choice.
pub fn no_alternative_is_lost()
    ensures { NoAlternativeIsLost }
{}

/// The law that each round of a repetition consumes.
pub fn rounds_consume()
    ensures { RoundsConsume }
{}

/// The law that each link of a chain consumes: its separator, or else the operand after it.
pub fn links_consume()
    ensures { LinksConsume }
{}

/// The law that the two readings of choice give the same answers: an alternative that is ok and consumes nothing is the last
/// one, so there is no later one to prefer.
pub fn readings_agree()
    ensures { ReadingsAgree }
{}
