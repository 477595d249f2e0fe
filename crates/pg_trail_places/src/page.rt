//! The page of pieces.

ghost use Rattle.std.specs.Prelude.{◌≡◌, ◌++◌, codes, decimal, OnOk, IfOk, false};
ghost use Rattle.pg_tree.specs.Json.{quoted};
ghost use Rattle.pg_trail_places.specs.PlacedJson.{stretch_json, leaf_json, head_json};
ghost use Rattle.pg_trail_places.specs.Pieces.{part_of, parts_of, part_json, comma_before, begins, is_end, parts_json};
ghost use Rattle.pg_trail_places.specs.Positions.{positions_of};

use crate::piece::Piece;
use crate::positions::{position_at, positions};
use crate::stretch::Stretch;
use itoa::Buffer;
use pg_text::{Pos, Text};
use pg_tree::push_quoted;
use std::alloc::{AllocError, Global};

/// The page of the pieces of a forest of the text, in square brackets and with a line end.
pub(crate) fn page_of(
    alloc: Global,
    text: &Text,
    pieces: &[Piece<'_>],
) -> Result<Vec<u8>, AllocError>
    ensures { IfOk result (λ page. page.items ≡ codes "[" ++ (parts_json text.now false (parts_of pieces.now) ++ codes "]\n")) }
{
    let positions = positions(alloc, text)?;
    let mut page = Vec::from_slice(alloc, b"[")?;
    push_pieces(text, positions.as_slice(), pieces, &mut page)?;
    page.extend_from_slice(b"]\n")?;
    Ok(page)
}

/// Appends the pieces, before which no tree ended.
fn push_pieces(
    text: &Text,
    positions: &[Pos],
    pieces: &[Piece<'_>],
    page: &mut Vec<u8>,
) -> Result<(), AllocError>
    requires { positions.now ≡ positions_of text.now }
    ensures { OnOk result (page.new.items ≡ page.old.items ++ parts_json text.now false (parts_of pieces.now)) }
{
    let mut later = false;
    for piece in pieces {
        push_comma(later, piece, page)?;
        push_piece(text, positions, piece, page)?;
        later = is_end(piece);
    }
    Ok(())
}

/// Whether a tree ends with the piece.
fn is_end(piece: &Piece<'_>) -> bool
    ensures { result ≡ is_end (part_of piece.now) }
{
    match piece {
        Piece::Leaf(_, _) | Piece::Close => true,
        Piece::Open(_, _) => false,
    }
}

/// Appends the comma before the piece, if a tree ended before and another begins.
fn push_comma(later: bool, piece: &Piece<'_>, page: &mut Vec<u8>) -> Result<(), AllocError>
    ensures { OnOk result (page.new.items ≡ page.old.items ++ comma_before later (part_of piece.now)) }
{
    if later && begins(piece) {
        page.push(b',')?;
    }
    Ok(())
}

/// Whether a tree begins with the piece.
fn begins(piece: &Piece<'_>) -> bool
    ensures { result ≡ begins (part_of piece.now) }
{
    match piece {
        Piece::Leaf(_, _) | Piece::Open(_, _) => true,
        Piece::Close => false,
    }
}

/// Appends the text of the piece.
fn push_piece(
    text: &Text,
    positions: &[Pos],
    piece: &Piece<'_>,
    page: &mut Vec<u8>,
) -> Result<(), AllocError>
    requires { positions.now ≡ positions_of text.now }
    ensures { OnOk result (page.new.items ≡ page.old.items ++ part_json text.now (part_of piece.now)) }
{
    match piece {
        Piece::Leaf(own, stretch) => push_leaf(text, positions, own, *stretch, page),
        Piece::Open(label, stretch) => push_head(text, positions, label, *stretch, page),
        Piece::Close => page.extend_from_slice(b"]}"),
    }
}

/// Appends a leaf.
fn push_leaf(
    text: &Text,
    positions: &[Pos],
    own: &[u8],
    stretch: Stretch,
    page: &mut Vec<u8>,
) -> Result<(), AllocError>
    requires { positions.now ≡ positions_of text.now }
    ensures { OnOk result (page.new.items ≡ page.old.items ++ leaf_json text.now own.now stretch) }
{
    page.extend_from_slice(b"{\"text\":")?;
    push_quoted(own, page)?;
    push_stretch(text, positions, stretch, page)?;
    page.extend_from_slice(b"}")
}

/// Appends what stands before the kids of a node.
fn push_head(
    text: &Text,
    positions: &[Pos],
    label: &[u8],
    stretch: Stretch,
    page: &mut Vec<u8>,
) -> Result<(), AllocError>
    requires { positions.now ≡ positions_of text.now }
    ensures { OnOk result (page.new.items ≡ page.old.items ++ head_json text.now label.now stretch) }
{
    page.extend_from_slice(b"{\"node\":")?;
    push_quoted(label, page)?;
    push_stretch(text, positions, stretch, page)?;
    page.extend_from_slice(b",\"kids\":[")
}

/// Appends the members for a stretch.
fn push_stretch(
    text: &Text,
    positions: &[Pos],
    stretch: Stretch,
    page: &mut Vec<u8>,
) -> Result<(), AllocError>
    requires { positions.now ≡ positions_of text.now }
    ensures { OnOk result (page.new.items ≡ page.old.items ++ stretch_json text.now stretch) }
{
    let Pos { line, column } = position_at(positions, text, stretch.start);
    push_member(b",\"start\":", stretch.start, page)?;
    push_member(b",\"end\":", stretch.end, page)?;
    push_member(b",\"line\":", line, page)?;
    push_member(b",\"column\":", column, page)
}

/// Appends a member whose value is a number.
fn push_member(name: &[u8], number: u32, page: &mut Vec<u8>) -> Result<(), AllocError>
    ensures { OnOk result (page.new.items ≡ page.old.items ++ (name.now ++ decimal number)) }
{
    page.extend_from_slice(name)?;
    let mut digits = Buffer::new();
    page.extend_from_slice(digits.format(number).as_bytes())
}
