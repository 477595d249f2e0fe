//! The opening texts of nodes, and leaves behind them.

ghost use Rattle.std.specs.Prelude.{◌≡◌, ◌++◌, false, is_err, encode_utf8_all};
ghost use Rattle.pg_tree.specs.Json.{quoted};
ghost use Rattle.pg_tree.specs.Written.{braces};
ghost use Rattle.pg_tree_placed.specs.Written.{comma};
ghost use Rattle.pg_tree_placed.specs.Writing.{IsPut};

use crate::block::{Block, Stopped};
use crate::quoting::push_quoted_characters;
use pg_tree::Meter;
use std::io::Write;

/// Pushes a leaf of any characters, with what comes before it.
#[inline(never)]
pub(crate) fn push_any<W: Write>(
    characters: &[char],
    is_comma: bool,
    begins: u32,
    block: &mut Block,
    writer: &mut Meter<W>,
) -> Result<(), Stopped>
    requires { writer.old.failed ≡ false }
    ensures failed { writer.new.failed ≡ is_err result }
    ensures so { IsPut result (W.contents writer.old.inner) block.old (W.contents writer.new.inner) block.new (comma is_comma ++ (braces begins ++ quoted (encode_utf8_all characters.now))) }
{
    push_openings(is_comma, begins, block, writer)?;
    push_quoted_characters(characters, block, writer)
}

/// Pushes the opening texts of so many nodes, behind a comma if one is wanted.
pub(crate) fn push_openings<W: Write>(
    is_comma: bool,
    count: u32,
    block: &mut Block,
    writer: &mut Meter<W>,
) -> Result<(), Stopped>
    requires { writer.old.failed ≡ false }
    ensures failed { writer.new.failed ≡ is_err result }
    ensures so { IsPut result (W.contents writer.old.inner) block.old (W.contents writer.new.inner) block.new (comma is_comma ++ braces count) }
{
    push_comma(is_comma, block, writer)?;
    for _ in 0..count {
        block.push(b"{\"kids\":[", writer)?;
    }
    Ok(())
}

/// Pushes a comma, if one is wanted.
fn push_comma<W: Write>(
    is_wanted: bool,
    block: &mut Block,
    writer: &mut Meter<W>,
) -> Result<(), Stopped>
    requires { writer.old.failed ≡ false }
    ensures failed { writer.new.failed ≡ is_err result }
    ensures so { IsPut result (W.contents writer.old.inner) block.old (W.contents writer.new.inner) block.new (comma is_wanted) }
{
    if is_wanted {
        block.push(b",", writer)
    } else {
        Ok(())
    }
}
