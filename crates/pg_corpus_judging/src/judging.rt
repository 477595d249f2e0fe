//! What came instead of what is wanted, if it is something else.

ghost use Rattle.std.specs.Prelude.{◌≡◌, Some, IfOk};
ghost use Rattle.std.specs.Str.{bytes_eq};
ghost use Rattle.std.specs.Option.{option_map};
ghost use Rattle.pg_tree.specs.Json.{json};
ghost use Rattle.pg_corpus.specs.Wanted.{shown, kind_of};
ghost use Rattle.pg_corpus_outline.specs.Outlines.{forest_outline};
ghost use Rattle.pg_corpus_judging.specs.declared.came.Came.TheVariants.{Trees, Error};
ghost use Rattle.pg_corpus_judging.specs.Judging.{came_instead, instead, instead_of_error, as_error, error_lines};

use crate::came::Came;
use crate::error_lines::error_lines;
use pg_corpus::{Wanted, told_apart};
use pg_corpus_outline::outline;
use pg_message::ParseError;
use pg_tree::{Forest, Meter, write_json};
use std::alloc::{AllocError, Global};

/// What came instead of what is wanted, as a case would want it. None if it is what is wanted. The only error is that memory runs out.
pub fn came_instead(
    alloc: Global,
    wanted: &[u8],
    came: &Came,
) -> Result<Option<Vec<u8>>, AllocError>
    ensures { IfOk result (λ other. option_map (λ page. page.items) other ≡ came_instead (kind_of wanted.now) came.now) }
{
    let kind = told_apart(wanted);
    match came {
        Came::Trees(forest) => instead_of_trees(alloc, kind, forest),
        Came::Error(error) => instead_of_error(alloc, kind, error),
    }
}

/// The same, where the text comes to these trees.
fn instead_of_trees(
    alloc: Global,
    wanted: Wanted,
    forest: &Forest,
) -> Result<Option<Vec<u8>>, AllocError>
    ensures { IfOk result (λ other. option_map (λ page. page.items) other ≡ came_instead (shown wanted.entry) (Trees forest.now)) }
{
    match wanted {
        Wanted::Accepted => Ok(None),
        Wanted::Error(_) => other_outline(alloc, forest),
        Wanted::Json(text) => Ok(unless_same(text, json_of(alloc, forest)?)),
        Wanted::Outline(lines) => Ok(unless_same(lines, outline(alloc, forest)?)),
    }
}

/// The outline of a forest, where something else is wanted.
fn other_outline(alloc: Global, forest: &Forest) -> Result<Option<Vec<u8>>, AllocError>
    ensures { IfOk result (λ other. option_map (λ page. page.items) other ≡ Some (forest_outline forest.now)) }
{
    let page = outline(alloc, forest)?;
    Ok(Some(page))
}

/// What came, unless it is what is wanted.
fn unless_same(wanted: &[u8], came: Vec<u8>) -> Option<Vec<u8>>
    ensures { option_map (λ page. page.items) result ≡ instead wanted.now came.items }
{
    if wanted == came.as_slice() {
        drop(came);
        None
    } else {
        Some(came)
    }
}

/// What came instead of what is wanted, where the text has this error.
fn instead_of_error(
    alloc: Global,
    wanted: Wanted,
    error: &ParseError,
) -> Result<Option<Vec<u8>>, AllocError>
    ensures { IfOk result (λ other. option_map (λ page. page.items) other ≡ came_instead (shown wanted.entry) (Error error.now)) }
{
    match wanted {
        Wanted::Error(lines) => other_error(alloc, lines, error),
        Wanted::Accepted | Wanted::Json(_) | Wanted::Outline(_) => told(alloc, error),
    }
}

/// The same, where an error is wanted, with these lines if there are any.
fn other_error(
    alloc: Global,
    wanted: &[u8],
    error: &ParseError,
) -> Result<Option<Vec<u8>>, AllocError>
    ensures { IfOk result (λ other. option_map (λ page. page.items) other ≡ instead_of_error wanted.now (error_lines error.now)) }
{
    if wanted.is_empty() {
        return Ok(None);
    }
    if has_lines(alloc, wanted, error)? {
        return Ok(None);
    }
    told(alloc, error)
}

/// Whether these are the lines of an error.
fn has_lines(alloc: Global, wanted: &[u8], error: &ParseError) -> Result<bool, AllocError>
    ensures { IfOk result (λ same. same ≡ bytes_eq wanted.now (error_lines error.now)) }
{
    let lines = error_lines(alloc, error)?;
    Ok(wanted == lines.as_slice())
}

/// An error as a case would want it.
fn told(alloc: Global, error: &ParseError) -> Result<Option<Vec<u8>>, AllocError>
    ensures { IfOk result (λ other. option_map (λ page. page.items) other ≡ Some (as_error (error_lines error.now))) }
{
    let lines = error_lines(alloc, error)?;
    let mut page = Vec::from_slice(alloc, b"error\n")?;
    page.extend_from_slice(lines.as_slice())?;
    Ok(Some(page))
}

/// A forest's JSON.
fn json_of(alloc: Global, forest: &Forest) -> Result<Vec<u8>, AllocError>
    ensures { IfOk result (λ page. page.items ≡ json forest.now) }
{
    let mut page = Meter::new(Vec::new(alloc));
    if write_json(alloc, forest, &mut page).is_err() {
        return Err(AllocError);
    }
    Ok(page.into_inner())
}
