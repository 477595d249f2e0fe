//! Laws on what cases come to. A law is a function that does nothing when it runs: its clause is the law.

ghost use Rattle.pg_corpus_judging.specs.Judging.{TextsComeToOneEnd, UnderivableTextsPassAsErrors};

/// The law that a text that the grammar derives comes to its forest alone. So a case with such a text passes exactly where that forest, printed, is what is
/// wanted, or where any is.
pub fn texts_come_to_one_end()
    ensures { TextsComeToOneEnd }
{}

/// The law that a case that wants an error, without its lines, passes where nothing derives its text.
pub fn underivable_texts_pass_as_errors()
    ensures { UnderivableTextsPassAsErrors }
{}
