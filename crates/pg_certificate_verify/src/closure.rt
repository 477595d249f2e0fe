//! Whether sets of starts are covered by claimed sets.
//!
//! A start that is in the claimed set is covered at once. Any other is covered only if it is a class and one class in the claimed set
//! contains it.

ghost use Rattle.std.specs.Prelude.{◌≡◌, ◌↔◌, IsTrue};
ghost use Rattle.pg_certificate_verify.specs.Closed.{HasWider, NumberIsCovered, SetIsCovered};

use crate::covering::is_wider;
use pg_graph_bits::BitSet;
use pg_sets_own::ListedStart;

/// Whether every start in the set is covered by one in the claimed set. It allocates no memory.
#[tactic(auto, using(crate::proofs::Closing::covered_more, crate::proofs::Closing::covered_all))]
pub fn is_set_covered(starts: &[ListedStart], claimed: &BitSet, set: &BitSet) -> bool
    ensures { IsTrue result ↔ SetIsCovered starts.now claimed.now set.now }
{
    for number in 0..starts.len() {
        if !is_number_covered(starts, claimed, set, number) {
            return false;
        }
    }
    true
}

/// Whether the start with this number is covered, or isn't in the set.
#[tactic(auto, using(crate::proofs::Closing::number_covered, crate::proofs::Closing::no_number))]
fn is_number_covered(starts: &[ListedStart], claimed: &BitSet, set: &BitSet, number: usize) -> bool
    ensures { IsTrue result ↔ NumberIsCovered starts.now claimed.now set.now number }
{
    match starts.get(number) {
        Some(listed) => {
            !set.contains(number) || claimed.contains(number) || has_wider(starts, claimed, listed)
        }
        None => true,
    }
}

/// Whether the start is a class and a class in the claimed set contains it.
#[tactic(auto, using(crate::proofs::Closing::none_wider_more, crate::proofs::Closing::none_wider, crate::proofs::Closing::one_wider))]
fn has_wider(starts: &[ListedStart], claimed: &BitSet, listed: &ListedStart) -> bool
    ensures { IsTrue result ↔ HasWider starts.now claimed.now listed.now }
{
    for number in 0..starts.len() {
        if claimed.contains(number) && is_wider(starts[number].start.view(), listed.start.view()) {
            return true;
        }
    }
    false
}
