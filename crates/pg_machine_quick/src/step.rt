//! What comes of a turn.

/// What comes of a turn.
#[derive(Clone, Copy)]
pub enum Step {
    /// The run goes on.
    GoesOn,
    /// It says nothing.
    GivesUp,
    /// It has answered.
    Stops,
}
