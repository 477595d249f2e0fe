//! Which starts are covered by claimed ones.
//!
//! A class is covered only by a single claimed class that contains it, even if several together would; any other start only by itself. So
//! wherever the start matches, a claimed start matches (`covered_starts_are_met`).

ghost use Rattle.std.specs.Prelude.{◌≡◌, ◌↔◌, IsTrue};
ghost use Rattle.std.specs.List.{AllByRecursion};
ghost use Rattle.pg_certificate_verify.specs.Covering.{IsWiderClass, CoversStart, IsCovered};

use pg_class::Class;
use pg_sets_own::ListedStart;
use pg_start::StartKind;

/// Whether each of the starts is covered by a claimed one. It allocates no memory.
#[tactic(auto, using(crate::proofs::Covered::all_at, crate::proofs::Covered::all_of))]
pub fn are_covered(claimed: &[ListedStart], starts: &[ListedStart]) -> bool
    ensures { IsTrue result ↔ AllByRecursion (IsCovered claimed.now) starts.now }
{
    for listed in starts {
        if !is_covered(claimed, listed) {
            return false;
        }
    }
    true
}

/// Whether the start is covered by a claimed one. It allocates no memory.
#[tactic(auto, using(crate::proofs::Covered::still_uncovered, crate::proofs::Covered::never_covered, crate::proofs::Covered::covered_at))]
pub fn is_covered(claimed: &[ListedStart], listed: &ListedStart) -> bool
    ensures { IsTrue result ↔ IsCovered claimed.now listed.now }
{
    for one in claimed {
        if covers(one, listed) {
            return true;
        }
    }
    false
}

/// Whether this claimed start covers the other.
fn covers(claimed: &ListedStart, listed: &ListedStart) -> bool
    ensures { IsTrue result ↔ CoversStart claimed.now listed.now }
{
    is_wider(claimed.start.view(), listed.start.view()) || is_same(claimed, listed)
}

/// Whether both are the same start, under the same number.
fn is_same(claimed: &ListedStart, listed: &ListedStart) -> bool
    ensures { IsTrue result ↔ (claimed.now ≡ listed.now) }
{
    claimed == listed
}

/// Whether both are classes, and the claimed one contains the other.
pub(crate) fn is_wider(claimed: &StartKind, kind: &StartKind) -> bool
    ensures { IsTrue result ↔ IsWiderClass claimed.now kind.now }
{
    match claimed {
        StartKind::Class(wider) => is_within(kind, wider),
        StartKind::Key(_, _) | StartKind::Word(_, _, _) | StartKind::End => false,
    }
}

/// Whether this is a class within the wider one.
fn is_within(kind: &StartKind, wider: &Class) -> bool
    ensures { IsTrue result ↔ IsWiderClass (StartKind.Class wider.now) kind.now }
{
    match kind {
        StartKind::Class(class) => class.within(wider),
        StartKind::Key(_, _) | StartKind::Word(_, _, _) | StartKind::End => false,
    }
}
