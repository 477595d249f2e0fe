//! Names of cases, each of which has to be another.

ghost use Rattle.std.specs.Prelude.{◌≡◌, true, IfOk, IfNone};
ghost use Rattle.pg_corpus.specs.Names.{Adds, AreApart};

use crate::case::Case;
use indexmap::IndexSet;
use pg_text::Pos;
use std::alloc::{AllocError, Global};

/// The position of the first case whose name an earlier one has, if there is any.
pub(crate) fn second_of_a_name(alloc: Global, cases: &[Case]) -> Result<Option<Pos>, AllocError>
    ensures { IfOk result (λ found. IfNone found (AreApart cases.now)) }
{
    let mut names = IndexSet::new(alloc);
    for case in cases {
        if !add(&mut names, Vec::from_slice(alloc, case.name)?)? {
            return Ok(Some(Pos {
                line: case.line,
                column: 1,
            }));
        }
    }
    Ok(None)
}

/// Adds a name, and tells whether it wasn't there.
fn add(names: &mut IndexSet<Vec<u8>>, name: Vec<u8>) -> Result<bool, AllocError>
    ensures { IfOk result (λ added. added ≡ true → Adds name.items names.old.keys names.new.keys) }
{
    Ok(names.insert(name)?)
}
