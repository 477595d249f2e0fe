//! Whether pieces lie in a text as trees do.

ghost use Rattle.std.specs.Prelude.{◌≡◌, ◌≤◌, [], ◌∷◌, true, List, reverse, IfOk};
ghost use Rattle.pg_trail_places.specs.Pieces.{Part, part_of, parts_of};
ghost use Rattle.pg_trail_places.specs.PlacedTrees.{between, IsTextBetween};
ghost use Rattle.pg_trail_places.specs.Order.{LieFrom};

use crate::piece::Piece;
use crate::stretch::Stretch;
use pg_text::{Text, utf8};
use std::alloc::{AllocError, Global};

/// Whether the pieces lie in the text, one after the other, those of a node within it, and each leaf has the text between its places unless it was joined.
pub(crate) fn lie_in_order(
    alloc: Global,
    text: &Text,
    pieces: &[Piece<'_>],
) -> Result<bool, AllocError>
    ensures { IfOk result (λ so. so ≡ true → LieFrom text.now 0 [] (parts_of pieces.now)) }
{
    let mut order = Order {
        at: 0,
        ends: Vec::new(alloc),
    };
    for piece in pieces {
        if !order.follows(alloc, text, piece)? {
            return Ok(false);
        }
    }
    Ok(order.at as usize <= text.len())
}

/// The place after the pieces so far, and the ends of the nodes that are open, the innermost last.
#[derive(Drop)]
pub(crate) struct Order {
    at: u32,
    ends: Vec<u32>,
}

impl Order {
    /// Whether the piece may come next. It is then the newest.
    fn follows(&mut self, alloc: Global, text: &Text, piece: &Piece<'_>) -> Result<bool, AllocError>
        ensures { IfOk result (λ so. so ≡ true → (ps : List Part) → LieFrom text.now self.new.at (reverse self.new.ends.items) ps
            → LieFrom text.now self.old.at (reverse self.old.ends.items) (part_of piece.now ∷ ps)) }
    {
        match piece {
            Piece::Leaf(own, stretch) => self.leaf(alloc, text, own, *stretch),
            Piece::Open(_, stretch) => self.begin_node(*stretch),
            Piece::Close => Ok(self.end_node()),
        }
    }

    /// Whether a leaf with its own text may come next. The newest place is then its end.
    fn leaf(
        &mut self,
        alloc: Global,
        text: &Text,
        own: &[u8],
        stretch: Stretch,
    ) -> Result<bool, AllocError>
        ensures { IfOk result (λ so. so ≡ true → (self.old.at ≤ stretch.start) × ((stretch.start ≤ stretch.end)
            × (IsTextBetween text.now stretch own.now × ((self.new.at ≡ stretch.end) × (self.new.ends.items ≡ self.old.ends.items))))) }
    {
        if stretch.start < self.at || stretch.end < stretch.start {
            return Ok(false);
        }
        self.at = stretch.end;
        is_text_between(alloc, text, stretch, own)
    }

    /// Whether a node may begin next. It is then open.
    fn begin_node(&mut self, stretch: Stretch) -> Result<bool, AllocError>
        ensures { IfOk result (λ so. so ≡ true → (self.old.at ≤ stretch.start) × ((self.new.at ≡ stretch.start)
            × (reverse self.new.ends.items ≡ stretch.end ∷ reverse self.old.ends.items))) }
    {
        if stretch.start < self.at {
            return Ok(false);
        }
        self.at = stretch.start;
        self.ends.push(stretch.end)?;
        Ok(true)
    }

    /// Whether the innermost open node may end next. It isn't open then.
    fn end_node(&mut self) -> bool
        ensures { result ≡ true → (self.old.at ≤ self.new.at) × (reverse self.old.ends.items ≡ self.new.at ∷ reverse self.new.ends.items) }
    {
        match self.ends.pop() {
            Some(end) if self.at <= end => {
                self.at = end;
                true
            }
            Some(_) | None => false,
        }
    }
}

/// Whether a leaf with its own text has that which stands between its places. One that was joined has it in any case.
fn is_text_between(
    alloc: Global,
    text: &Text,
    stretch: Stretch,
    own: &[u8],
) -> Result<bool, AllocError>
    ensures { IfOk result (λ so. so ≡ true → IsTextBetween text.now stretch own.now) }
{
    if stretch.is_joined {
        return Ok(true);
    }
    let between = utf8(alloc, between(text, stretch))?;
    Ok(between.as_bytes() == own)
}

/// The characters between the places.
fn between(text: &Text, stretch: Stretch) -> &[char]
    ensures { result.now ≡ between text.now stretch.start stretch.end }
{
    let characters = text.characters();
    let end = (stretch.end as usize).min(characters.len());
    let start = (stretch.start as usize).min(end);
    &characters[start..end]
}
