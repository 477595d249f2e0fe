//! The page of a forest, piece by piece.

ghost use Rattle.std.specs.Prelude.{◌≡◌, ◌++◌, ◌+◌, ◌*◌, ◌^◌, ◌<◌, false, IfOk, OnOk, codes, replicate};
ghost use Rattle.std.specs.Fmt.{decimal};
ghost use Rattle.std.specs.Option.{option_copied};
ghost use Rattle.pg_tree.specs.Json.{quoted};
ghost use Rattle.pg_tree.specs.Trees.{kids_of};
ghost use Rattle.pg_corpus_outline.specs.Pieces.{token_of, tokens_of};
ghost use Rattle.pg_corpus_outline.specs.Outlines.{indentation, line, name_of, beside, outline, forest_outline, sole_token, token_bytes, silent_after, depth_after, tokens_page};

use crate::label::push_label;
use crate::piece::Piece;
use crate::reading::pieces_of;
use itoa::Buffer;
use pg_tree::{Forest, push_quoted};
use std::alloc::{AllocError, Global};

/// The greatest depth to which a line is indented.
const MOST_LEVELS: usize = 40;

/// The outline of a forest (ours): what `pgw parse --tree` prints of it, without places, and without the last line feed.
///
/// There is a line for each node and leaf, a node's before those of its kids, which are indented by two more blanks. A line has the node's label or the leaf's
/// text in quotes, with JSON's escapes. A leaf that is all that is in a node is on the node's line. What is in more than 40 nodes isn't indented further, and
/// begins with the number of nodes around it, as `41> num "1"`. A label that is no word, or that could be taken for something else, is in quotes too, after the
/// word `node`: `error`, `accepted` and `node`, labels that begin with `=`, `-`, `#` or `[` or end with `>`, and empty ones. No trees are `[]`, as in JSON.
///
/// ```text
/// call
///   name "max"
///   num "42"
/// ```
///
/// The only error is that memory runs out.
pub fn outline(alloc: Global, forest: &Forest) -> Result<Vec<u8>, AllocError>
    ensures { IfOk result (λ page. page.items ≡ forest_outline forest.now) }
{
    if forest.len() == 0 {
        return Vec::from_slice(alloc, b"[]");
    }
    let mut page = lines(alloc, forest)?;
    page.truncate(page.len().saturating_sub(1));
    Ok(page)
}

/// The lines of a forest.
#[tactic(auto, using(crate::proofs::Printing::page_is_outline))]
fn lines(alloc: Global, forest: &Forest) -> Result<Vec<u8>, AllocError>
    ensures { IfOk result (λ page. page.items ≡ outline 0 (kids_of forest.now)) }
{
    let pieces = pieces_of(alloc, forest)?;
    printed(alloc, pieces.as_slice())
}

/// The lines of pieces.
#[tactic(auto, using(crate::proofs::Printing::printed_more, crate::proofs::Printing::deeper, crate::proofs::Printing::no_more))]
fn printed(alloc: Global, pieces: &[Piece]) -> Result<Vec<u8>, AllocError>
    ensures { IfOk result (λ page. page.items ≡ tokens_page false 0 (tokens_of pieces.now)) }
{
    let mut page = Vec::new(alloc);
    let mut depth = 0;
    let mut silent = false;
    for at in 0..pieces.len() {
        let piece = pieces[at];
        let next = sole_leaf(&pieces[at + 1..]);
        push_piece(&mut page, piece, next, depth, silent)?;
        depth = depth_after(piece, depth);
        silent = silent_after(piece, next);
    }
    Ok(page)
}

/// The leaf that these pieces begin with, if the end of a node comes next.
fn sole_leaf<'a>(pieces: &[Piece<'a>]) -> Option<&'a [u8]>
    ensures { option_copied result ≡ sole_token (tokens_of pieces.now) }
{
    match pieces {
        [Piece::Leaf(text), Piece::Close, ..] => Some(*text),
        _ => None,
    }
}

/// Appends what is printed of a piece.
fn push_piece(
    page: &mut Vec<u8>,
    piece: Piece,
    next: Option<&[u8]>,
    depth: usize,
    silent: bool,
) -> Result<(), AllocError>
    ensures { OnOk result (page.new.items ≡ page.old.items ++ token_bytes silent depth (token_of piece.entry) (option_copied next.entry)) }
{
    match piece {
        Piece::Open(label) => push_node(page, label, next, depth),
        Piece::Leaf(text) => {
            if silent {
                return Ok(());
            }
            push_leaf(page, text, depth)
        }
        Piece::Close => Ok(()),
    }
}

/// How many nodes are around what comes behind a piece.
fn depth_after(piece: Piece, depth: usize) -> usize
    requires { depth + 1 < 2 ^ 64 }
    ensures { result ≡ depth_after depth (token_of piece.entry) }
{
    match piece {
        Piece::Open(_) => depth + 1,
        Piece::Leaf(_) => depth,
        Piece::Close => depth.saturating_sub(1),
    }
}

/// Whether the leaf behind a piece is on the line of a node.
fn silent_after(piece: Piece, next: Option<&[u8]>) -> bool
    ensures { result ≡ silent_after (token_of piece.entry) (option_copied next.entry) }
{
    match piece {
        Piece::Open(_) => next.is_some(),
        Piece::Leaf(_) | Piece::Close => false,
    }
}

/// Appends a node's line, with a leaf beside it if there is one.
fn push_node(
    page: &mut Vec<u8>,
    label: &[u8],
    next: Option<&[u8]>,
    depth: usize,
) -> Result<(), AllocError>
    ensures { OnOk result (page.new.items ≡ page.old.items ++ line depth (name_of label.now ++ beside (option_copied next.entry))) }
{
    push_indentation(page, depth)?;
    push_label(page, label)?;
    push_beside(page, next)?;
    page.push(b'\n')?;
    Ok(())
}

/// Appends the leaf beside a node, if there is one.
fn push_beside(page: &mut Vec<u8>, next: Option<&[u8]>) -> Result<(), AllocError>
    ensures { OnOk result (page.new.items ≡ page.old.items ++ beside (option_copied next.entry)) }
{
    match next {
        Some(text) => {
            page.push(b' ')?;
            push_quoted(text, page)
        }
        None => Ok(()),
    }
}

/// Appends a leaf's line.
fn push_leaf(page: &mut Vec<u8>, text: &[u8], depth: usize) -> Result<(), AllocError>
    ensures { OnOk result (page.new.items ≡ page.old.items ++ line depth (quoted text.now)) }
{
    push_indentation(page, depth)?;
    push_quoted(text, page)?;
    page.push(b'\n')?;
    Ok(())
}

/// Appends the indentation of a line in so many nodes.
fn push_indentation(page: &mut Vec<u8>, depth: usize) -> Result<(), AllocError>
    ensures { OnOk result (page.new.items ≡ page.old.items ++ indentation depth) }
{
    push_blanks(page, depth.min(MOST_LEVELS))?;
    if depth > MOST_LEVELS {
        push_depth(page, depth)?;
    }
    Ok(())
}

/// Appends two blanks for each level.
fn push_blanks(page: &mut Vec<u8>, levels: usize) -> Result<(), AllocError>
    ensures { OnOk result (page.new.items ≡ page.old.items ++ replicate (2 * levels) 32) }
{
    let mut level = 0;
    while level < levels {
        page.push(b' ')?;
        page.push(b' ')?;
        level += 1;
    }
    Ok(())
}

/// Appends the number of nodes around a line.
fn push_depth(page: &mut Vec<u8>, depth: usize) -> Result<(), AllocError>
    ensures { OnOk result (page.new.items ≡ page.old.items ++ (decimal depth ++ codes "> ")) }
{
    let mut digits = Buffer::new();
    page.extend_from_slice(digits.format(depth).as_bytes())?;
    page.extend_from_slice(b"> ")
}
