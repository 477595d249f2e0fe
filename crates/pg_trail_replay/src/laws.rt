//! A law on trails and derivations.
//!
//! A law is a function that does nothing when it runs: its clause is the law, and a caller gets the clause.

ghost use Rattle.pg_trail_replay.specs.Laws.{TrailsTellDerivations};

/// The law that the trail of a derivation derives the same forest, and no other, and doesn't stop: so replaying the trail of a parse
/// gives what was parsed.
pub fn trails_tell_derivations()
    ensures { TrailsTellDerivations }
{}
