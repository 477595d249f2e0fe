//! Laws of accepted grammars, those with nothing wrong at any node (`IsFaultless`). The least sets, which a check uses,
//! show that such a grammar is predictive, so the laws of predictive grammars hold for it.
//!
//! Operators aren't covered yet: the grammar has none. A law is a function that does nothing when it runs: its clause is the
//! law.

ghost use Rattle.pg_derive.specs.Accepted.{AcceptedGrammarsArePredictive, AcceptedGrammarsLoseNoAlternative, AcceptedRoundsConsume, AcceptedLinksConsume, AcceptedGrammarsAnswer, AcceptedGrammarsAnswerWhatTheyDerive, AcceptedGrammarsRefuseRightly, AcceptedGrammarsDeriveOnce};

/// The law that a grammar with nothing wrong at any node is predictive: its least sets show it.
pub fn accepted_grammars_are_predictive()
    ensures { AcceptedGrammarsArePredictive }
{}

/// The law that no choice of such a grammar loses an alternative to consumed input: if one fails after consumed input,
/// no later one derives anything that ends before what can follow the choice, by the least sets.
pub fn accepted_grammars_lose_no_alternative()
    ensures { AcceptedGrammarsLoseNoAlternative }
{}

/// The law that each round of a repetition consumes.
pub fn accepted_rounds_consume()
    ensures { AcceptedRoundsConsume }
{}

/// The law that each link of a chain consumes: its separator, or else the operand after it.
pub fn accepted_links_consume()
    ensures { AcceptedLinksConsume }
{}

/// The law that such a grammar answers each text, ok or with an error.
pub fn accepted_grammars_answer()
    ensures { AcceptedGrammarsAnswer }
{}

/// The law that such a grammar answers ok, with the derivation's forest and trail, if it derives the text.
pub fn accepted_grammars_answer_what_they_derive()
    ensures { AcceptedGrammarsAnswerWhatTheyDerive }
{}

/// The law that such a grammar doesn't derive a text that it refuses.
pub fn accepted_grammars_refuse_rightly()
    ensures { AcceptedGrammarsRefuseRightly }
{}

/// The law that such a grammar derives a text in one way at most.
pub fn accepted_grammars_derive_once()
    ensures { AcceptedGrammarsDeriveOnce }
{}
