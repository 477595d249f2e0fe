//! What a run consumes after a place that a `try` gave back: nothing.
//!
//! A `try` around anything but a lexeme fails after consumed input only if no derivation is left to be found, so the run ends
//! without reading on. A law is a function that does nothing when it runs: its clause is the law.

ghost use Rattle.pg_derive_backtracking.specs.Backtracking.{LogsAreUnique, PredictiveGrammarsReadNothingTwice, AcceptedGrammarsReadNothingTwice};

/// The law that all runs of a node at one place have one log.
pub fn logs_are_unique()
    ensures { LogsAreUnique }
{}

/// The law that a run of the start rule consumes nothing after a place that a `try` gave back, if closed sets show the grammar to be
/// predictive.
pub fn nothing_is_read_twice_by_closed_sets()
    ensures { PredictiveGrammarsReadNothingTwice }
{}

/// The law that a run of the start rule of an accepted grammar consumes nothing after a place that a `try` gave back.
pub fn nothing_is_read_twice()
    ensures { AcceptedGrammarsReadNothingTwice }
{}
