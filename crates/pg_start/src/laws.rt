//! Laws about any two starts, beyond what a single call says.
//!
//! A law is a function that does nothing when it runs. Its clause is the law, and calling the function gives the clause.
ghost use Rattle.std.specs.Prelude.{◌≡◌, ℕ, List, true};
ghost use Rattle.std.specs.Str.{all_scalars};
ghost use Rattle.pg_start.specs.Apart.{Apart};
ghost use Rattle.pg_start.specs.Starts.{MatchesAt};
ghost use Rattle.pg_start.specs.declared.kind.StartKind.{StartKind};

/// The law that `Apart` is symmetric.
pub fn apart_is_symmetric()
    ensures { (one other : StartKind) → Apart one other → Apart other one }
{}

/// The law that two starts which are apart never match at the same place of a text. The numbers in a text are characters, as `Text::characters` ensures for
/// every text.
pub fn starts_apart_never_meet()
    ensures { (one other : StartKind) → Apart one other → (text : List ℕ) → all_scalars text ≡ true →
        (place : ℕ) → MatchesAt one text place → MatchesAt other text place → ⊥ }
{}
