//! How many shown nodes begin at each entry.
//!
//! A node begins at the first entry of its tree, which its size gives. Only `json_text.rt` calls this.

ghost use Rattle.std.specs.Prelude.{◌≡◌, ◌≤◌, [], length, sum, IfOk, OnOk};
ghost use Rattle.pg_tree.specs.Written.{IsWithin, AreWithin, with_opening, openings_on};

use crate::entry::Entry;
use std::alloc::{AllocError, Global};

/// How many shown nodes begin at each of these entries. The caller owes that they are the entries of trees.
pub(crate) fn openings(alloc: Global, entries: &[Entry]) -> Result<Vec<usize>, AllocError>
    requires { AreWithin 0 entries.now }
    ensures { IfOk result (λ openings. openings.items ≡ openings_on [] entries.now) }
{
    let mut openings = Vec::with_capacity(alloc, entries.len())?;
    for i in 0..entries.len() {
        push_opening(entries[i], &mut openings)?;
    }
    Ok(openings)
}

/// Notes where the tree of the next entry begins.
fn push_opening(entry: Entry, openings: &mut Vec<usize>) -> Result<(), AllocError>
    requires within { IsWithin (length openings.old.items) entry }
    requires few { sum openings.old.items ≤ length openings.old.items }
    ensures { OnOk result (openings.new.items ≡ with_opening openings.old.items entry) }
{
    openings.push(0)?;
    let begin = openings.len() - entry.extent().entries;
    openings[begin] += entry.opening();
    Ok(())
}
