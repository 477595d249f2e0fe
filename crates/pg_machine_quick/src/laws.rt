//! What laid-out code owes, as laws.
//!
//! A law is a function that does nothing when it runs. Its clause is the law, and calling the function gives the clause.

ghost use Rattle.pg_machine_quick.specs.Laws.{StopsWithAnswers, TapesAnswer};

/// The law that a run of laid-out code that stops has answered: for some trail, consumption and error the start rule and the end after it answer ok with the
/// forest, the spot and the number of nodes that it stopped with.
pub fn code_answers()
    ensures { StopsWithAnswers }
{}

/// The same law of runs whose trees are in one list. So a machine over arrays owes only that it makes these turns.
pub fn tapes_answer()
    ensures { TapesAnswer }
{}
