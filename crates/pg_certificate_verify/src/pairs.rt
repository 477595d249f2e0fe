//! Starts of two sets that meet, found by comparing only these.
//!
//! Nothing is kept of what was compared, so no memory grows with the claims. It suits sets of many starts that few conditions name; where
//! each start is asked for again and again, a table of all of them is quicker (`pg_predict`).

ghost use Rattle.std.specs.Prelude.{◌≡◌, ◌↔◌, true, false, IsTrue};
ghost use Rattle.std.specs.Option.{MatchOption};
ghost use Rattle.pg_grammar_value.specs.Grammar.{Grammar};
ghost use Rattle.pg_predict_conditions.specs.Conditions.{NoneMeet};
ghost use Rattle.pg_predict_conditions.specs.Shown.{AreWellFormed};
ghost use Rattle.pg_sets.specs.Sets.{HasStart};
ghost use Rattle.pg_certificate_verify.specs.Breaking.{SomeMeet};
ghost use Rattle.pg_certificate_verify.specs.Pairs.{MeetsNone, IsFirstMet, HasFirstPair, HasNoPair};

use pg_graph_bits::BitSet;
use pg_sets::Sets;
use pg_sets_own::ListedStart;
use pg_start::{Start, apart};

/// The first start in the set that a given one meets.
pub(crate) fn first_met(starts: &[ListedStart], set: &BitSet, start: &Start) -> Option<usize>
    ensures { MatchOption result (MeetsNone starts.now set.now start.now) (λ k. IsFirstMet starts.now set.now start.now k) }
{
    let mut from = 0;
    while let Some(number) = set.next(from) {
        if number >= starts.len() {
            return None;
        }
        if !apart(start, &starts[number].start) {
            return Some(number);
        }
        from = number + 1;
    }
    None
}

/// Whether a start of one set and a start of the other meet.
pub(crate) fn is_pair(starts: &[ListedStart], one: &BitSet, other: &BitSet) -> bool
    ensures met { result ≡ true → HasFirstPair starts.now one.now other.now }
    ensures apart { result ≡ false → HasNoPair starts.now one.now other.now }
{
    let mut from = 0;
    while let Some(number) = one.next(from) {
        if number >= starts.len() {
            return false;
        }
        match first_met(starts, other, &starts[number].start) {
            Some(_) => return true,
            None => from = number + 1,
        }
    }
    false
}

/// As `is_pair`, in the words of conditions, for sets of any grammar.
pub(crate) fn sets_meet(sets: &Sets, one: &BitSet, other: &BitSet) -> bool
    ensures { (g : Grammar) → AreWellFormed g sets.now →
        IsTrue result ↔ SomeMeet g (HasStart sets.now.starts one.now) (HasStart sets.now.starts other.now) }
{
    is_pair(sets.starts(), one, other)
}
