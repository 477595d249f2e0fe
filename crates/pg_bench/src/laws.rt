//! Laws that connect parsing and replaying.
//!
//! A law is a function that does nothing when it runs. Its contract is the law, and a call makes it known.

ghost use Rattle.pg_bench.specs.Laws.{ParsedTrailsReplay};

use pg_trail_replay::trails_tell_derivations;

/// The law that parsing and replaying agree: the trail of a text that was parsed leads over that text to its forest.
pub fn parsed_trails_replay()
    ensures { ParsedTrailsReplay }
{
    trails_tell_derivations();
}
