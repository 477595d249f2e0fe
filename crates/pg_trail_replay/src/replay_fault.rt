//! Why a trail can't be replayed.

ghost use Rattle.std.specs.Prelude.{◌≡◌};
ghost use Rattle.pg_trail_replay.specs.declared.replay_fault.ReplayFault.TheVariants.{Memory};

use std::alloc::AllocError;

/// Why a replay stops; the first reason from the left is reported (ours).
#[derive(Clone, Copy, Debug)]
pub enum Mismatch {
    /// The next item doesn't fit the node, its operators are those of no tree that fits the table, or a rule is
    /// entered again before anything was consumed.
    ItemDiffers,
    /// The text doesn't have what the node reads.
    TextDiffers,
    /// The start rule ended, and characters or items are left over.
    LeftOver,
    /// The table doesn't admit the operator that the text declares.
    NotAdmitted,
}

/// Where a replay stops.
#[derive(Clone, Copy, Debug)]
pub struct Stop {
    /// The reason.
    pub why: Mismatch,
    /// The place in the text, in characters from 0.
    pub place: usize,
    /// How many items are left, with the one that doesn't fit.
    pub left: usize,
}

/// Why there is no forest.
#[derive(Debug, Drop)]
pub enum ReplayFault {
    /// The trail doesn't lead through the text.
    Stopped(Stop),
    /// Memory ran out.
    Memory,
}

impl From<AllocError> for ReplayFault {
    ghost from_gives = { λ _ e. e ≡ Memory };

    fn from(_: AllocError) -> ReplayFault {
        ReplayFault::Memory
    }
}
