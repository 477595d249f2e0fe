//! Sets of numbers in one list.
ghost use Rattle.std.specs.Prelude.{◌≡◌, ◌<◌, ◌↔◌, ◌||◌, ℕ, length, slice_set, IsTrue};
ghost use Rattle.pg_graph_bits.specs.Numbers.{contains, set_at, Adds};

use crate::bit_set::BitSet;

/// Adds to one of the sets the numbers of another with the same limit. Returns whether one of them was new.
pub fn unite_within(sets: &mut [BitSet], to: usize, from: usize) -> bool
    requires to { to < length sets.old }
    requires from { from < length sets.old }
    requires limit { length (set_at sets.old to) ≡ length (set_at sets.old from) }
    ensures others { sets.new ≡ slice_set sets.old to (set_at sets.new to) }
    ensures limit { length (set_at sets.new to) ≡ length (set_at sets.old to) }
    ensures united { (n : ℕ) → contains (set_at sets.new to) n ≡ (contains (set_at sets.old to) n || contains (set_at sets.old from) n) }
    ensures grown { IsTrue result ↔ Adds (set_at sets.old to) (set_at sets.old from) }
{
    if to < from {
        let (front, back) = sets.split_at_mut(from);
        front[to].unite(&back[0])
    } else if from < to {
        let (front, back) = sets.split_at_mut(to);
        back[0].unite(&front[from])
    } else {
        false
    }
}
