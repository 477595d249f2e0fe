//! The page of a forest with places, and writing it.

ghost use Rattle.std.specs.Prelude.{◌≡◌, true, false, IfOk, IfSome, OnOk, IsErrOf};
ghost use Rattle.pg_tree.specs.Trees.{kids_of};
ghost use Rattle.pg_trail_places.specs.Pieces.{tokens_of, trees_tokens};
ghost use Rattle.std.specs.Io.KnownBytes.{Appends};
ghost use Rattle.pg_tree.specs.Bytes.{AppendsPrefix};
ghost use Rattle.pg_trail_places.specs.PlacedJson.{IsPlacedPage, IsPlacedPageOf};

use crate::derived::DerivedText;
use crate::order::lie_in_order;
use crate::page::page_of;
use crate::piece::Piece;
use crate::reading::pieces_of;
use crate::walk::stretches_along;
use pg_text::Text;
use pg_tree::{Forest, Meter, write_bytes};
use std::alloc::{AllocError, Global};
use std::io::Write;
use thiserror::Error;

/// Why there is no page of a forest with places (ours).
#[derive(Clone, Copy, Debug, Error)]
pub enum PlacesFault {
    /// The trail leads to no places at which the forest's trees could lie. For the trail of the forest's derivation that doesn't happen.
    #[error("no places found for the trees")]
    NoPlaces,
    /// The writer answered an error, or took no byte of the page.
    #[error("W1 cannot write")]
    Writer,
    /// Memory ran out.
    #[error("out of memory")]
    Memory,
}

/// Writes a text's forest with places. The trail must be that of its derivation from the table. The page is an array in JSON, compact and with a line end: of a
/// leaf an object with its text, where it starts and ends, in characters from 0, and the line and the column at which it starts, both from 1; of a node one
/// with its label, the same, and its kids (ours).
///
/// ```text
/// [{"node":"num","start":0,"end":2,"line":1,"column":1,"kids":[{"text":"12","start":0,"end":2,"line":1,"column":1}]}]
/// ```
///
/// Without the places these are the trees of the forest. They lie in the text one after the other, and the kids of a node within it. A leaf's text is that
/// between its places, unless a builder joined it from other leaves. All of that is checked of the places that the trail leads to; if it didn't hold, nothing
/// would be written. All of it is in memory before its first byte is written. The writer must not have failed yet.
pub fn write_placed<W: Write>(
    alloc: Global,
    derived: &DerivedText<'_>,
    forest: &Forest,
    writer: &mut Meter<W>,
) -> Result<(), PlacesFault>
    requires { writer.old.failed ≡ false }

    // The writer took such a page, and no more.
    ensures ok { OnOk result (IsPlacedPageOf derived.now.text.now forest.now (Appends (W.contents writer.old.inner) (W.contents writer.new.inner))) }
    ensures stays { OnOk result (writer.new.failed ≡ false) }

    // The writer failed, after a prefix of such a page.
    ensures failed { IsErrOf result PlacesFault.Writer → writer.new.failed ≡ true }
    ensures prefix { IsErrOf result PlacesFault.Writer →
        IsPlacedPageOf derived.now.text.now forest.now (AppendsPrefix (W.contents writer.old.inner) (W.contents writer.new.inner)) }

    // Every other fault came before the first byte.
    ensures memory { IsErrOf result PlacesFault.Memory → writer.new ≡ writer.old }
    ensures no_places { IsErrOf result PlacesFault.NoPlaces → writer.new ≡ writer.old }
{
    match checked_page(alloc, derived, forest) {
        Ok(Some(page)) => match write_bytes(page.as_slice(), writer) {
            Ok(()) => Ok(()),
            Err(_) => Err(PlacesFault::Writer),
        },
        Ok(None) => Err(PlacesFault::NoPlaces),
        Err(_) => Err(PlacesFault::Memory),
    }
}

/// The page, if the places to which the trail leads are such.
fn checked_page(
    alloc: Global,
    derived: &DerivedText<'_>,
    forest: &Forest,
) -> Result<Option<Vec<u8>>, AllocError>
    ensures { IfOk result (λ given. IfSome given (λ page. IsPlacedPage derived.now.text.now forest.now page.items)) }
{
    let stretches = stretches_along(alloc, derived)?;
    let pieces = pieces_of(alloc, forest, stretches.as_slice())?;
    drop(stretches);
    page_if_in_order(alloc, derived.text, forest, pieces.as_slice())
}

/// The page of the pieces of a forest, if they lie in the text as trees do.
#[tactic(auto, using(crate::proofs::Placing::placed_of))]
fn page_if_in_order(
    alloc: Global,
    text: &Text,
    _forest: &Forest,
    pieces: &[Piece<'_>],
) -> Result<Option<Vec<u8>>, AllocError>
    requires { tokens_of pieces.now ≡ trees_tokens (kids_of _forest.now) }
    ensures { IfOk result (λ given. IfSome given (λ page. IsPlacedPage text.now _forest.now page.items)) }
{
    if !lie_in_order(alloc, text, pieces)? {
        return Ok(None);
    }
    let page = page_of(alloc, text, pieces)?;
    Ok(Some(page))
}
