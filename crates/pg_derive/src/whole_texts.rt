//! Laws of a run of the start rule over a whole text, with the end of the text after it.
//!
//! For a predictive grammar: the run answers each text; a text is derived in one way at most; the answer is ok, with the one
//! forest and trail, exactly if the text is derived. A law is a function that does nothing when it runs: its clause is the law.

ghost use Rattle.pg_derive.specs.WholeTextLaws.{AnsweredTextsAreDerived, TextsAreAnswered, DerivedTextsAreAnswered, RefusedTextsAreNotDerived, TextsHaveOneDerivation};

/// The law that any grammar derives a text that it answers ok, with that forest and trail.
pub fn answered_texts_are_derived()
    ensures { AnsweredTextsAreDerived }
{}

/// The law that a predictive grammar answers each text, ok or with an error.
pub fn texts_are_answered()
    ensures { TextsAreAnswered }
{}

/// The law that a predictive grammar answers ok, with the derivation's forest and trail, if it derives the text.
pub fn derived_texts_are_answered()
    ensures { DerivedTextsAreAnswered }
{}

/// The law that a predictive grammar doesn't derive a text that it refuses.
pub fn refused_texts_are_not_derived()
    ensures { RefusedTextsAreNotDerived }
{}

/// The law that a predictive grammar derives a text in one way at most.
pub fn texts_have_one_derivation()
    ensures { TextsHaveOneDerivation }
{}
