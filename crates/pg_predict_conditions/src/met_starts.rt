//! For each start of a grammar the starts that it meets: those that aren't apart from it.
//!
//! Pairs of starts are compared only here, each once, and the answer is kept as a bit. Bounds decide most pairs
//! (`bounds.rt`).
ghost use Rattle.std.specs.Prelude.{◌↔◌, IfOk, IsTrue};
ghost use Rattle.pg_start.specs.Apart.{Apart};
ghost use Rattle.pg_predict_conditions.specs.Bounds.{AreStartBounds, AreBounds};
ghost use Rattle.pg_predict_conditions.specs.Shown.{IsMetSet, AreMeetings};

use crate::bounds::{Bounds, bounds_of, bounds_of_starts, share_an_end, tell_apart};
use pg_graph_bits::BitSet;
use pg_sets_own::ListedStart;
use pg_start::{Start, apart};
use std::alloc::{AllocError, Global};

/// For each of the starts the set of those that it meets.
pub(crate) fn met_starts(alloc: Global, starts: &[ListedStart]) -> Result<Vec<BitSet>, AllocError>
    ensures { IfOk result (λ meetings. AreMeetings starts.now meetings.items) }
{
    let bounds = bounds_of_starts(alloc, starts)?;
    let mut meetings = Vec::new(alloc);
    for listed in starts {
        meetings.push(met_within(alloc, starts, bounds.as_slice(), &listed.start)?)?;
    }
    Ok(meetings)
}

/// The set of these starts that a given start meets.
pub(crate) fn met_by(
    alloc: Global,
    starts: &[ListedStart],
    start: &Start,
) -> Result<BitSet, AllocError>
    ensures { IfOk result (λ met. IsMetSet starts.now start.now met) }
{
    let bounds = bounds_of_starts(alloc, starts)?;
    met_within(alloc, starts, bounds.as_slice(), start)
}

/// As `met_by`, for starts whose bounds are known.
fn met_within(
    alloc: Global,
    starts: &[ListedStart],
    bounds: &[Option<Bounds>],
    start: &Start,
) -> Result<BitSet, AllocError>
    requires { AreBounds starts.now bounds.now }
    ensures { IfOk result (λ met. IsMetSet starts.now start.now met) }
{
    let own = bounds_of(start);
    let mut met = BitSet::new(alloc, starts.len())?;
    for (number, others) in bounds.iter().enumerate() {
        if meets(start, &own, &starts[number].start, others) {
            met.insert(number);
        }
    }
    Ok(met)
}

/// Whether two starts meet: whether they aren't apart. `own` and `others` are their bounds.
#[inline]
fn meets(start: &Start, own: &Option<Bounds>, other: &Start, others: &Option<Bounds>) -> bool
    requires own { AreStartBounds start.now own.now }
    requires other { AreStartBounds other.now others.now }
    ensures { IsTrue result ↔ (Apart start.now other.now → ⊥) }
{
    !tell_apart(own, others) && (share_an_end(own, others) || !apart(start, other))
}
