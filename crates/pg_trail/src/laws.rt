//! A law on every trail.

ghost use Rattle.std.specs.Prelude.{List};
ghost use Rattle.pg_grammar_value.specs.declared.trail.TrailItem.{TrailItem};
ghost use Rattle.pg_trail.specs.Storable.{AreStorable};
ghost use Rattle.pg_trail.specs.TrailJson.{trail_json, IsTrailText};

/// The law that the text written for a trail is the JSON of that trail: `read_trail` gives the same trail, unless memory runs out.
/// A trail holds only characters and numbers of 64 bits.
pub fn written_trails_are_read()
    ensures { (trail : List TrailItem) → AreStorable trail → IsTrailText (trail_json trail) trail }
{}
