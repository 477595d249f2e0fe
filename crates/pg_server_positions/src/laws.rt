//! A law on positions.
ghost use Rattle.std.specs.Prelude.{◌≡◌, ◌≤◌, ℕ, List, length};
ghost use Rattle.pg_server_positions.specs.declared.position.Encoding.{Encoding};
ghost use Rattle.pg_server_positions.specs.Positions.{IsPlaceOf, position_at};
ghost use Rattle.pg_server_positions.specs.Again.{settled};

/// The law that the position of a place leads back to that place. One between a carriage return and its line feed has no position of its own: its position is
/// that of the place behind the line feed, and leads there.
pub fn positions_lead_back()
    ensures { (encoding : Encoding) → (text : List ℕ) → (place found : ℕ) → place ≤ length text →
        IsPlaceOf encoding text (position_at encoding text place) found → found ≡ settled encoding text place }
{}
