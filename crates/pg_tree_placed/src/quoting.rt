//! Characters in double quotes, as in JSON, pushed onto a block. It takes no memory: escapes are made one by one.

ghost use Rattle.std.specs.Prelude.{◌≡◌, ◌++◌, ◌<◌, false, is_err, codes, encode_utf8_all};
ghost use Rattle.std.specs.Char.{digit_char, encode_utf8};
ghost use Rattle.json.specs.Print.{escape, escape_letter, escape_byte};
ghost use Rattle.pg_tree.specs.Json.{quoted};
ghost use Rattle.pg_tree_placed.specs.Writing.{IsPut};

use crate::block::{Block, Stopped};
use crate::characters::plain_byte;
use pg_tree::Meter;
use std::io::Write;

/// Pushes the UTF-8 text of characters in double quotes, with JSON's escapes.
#[inline(never)]
pub(crate) fn push_quoted_characters<W: Write>(
    characters: &[char],
    block: &mut Block,
    writer: &mut Meter<W>,
) -> Result<(), Stopped>
    requires { writer.old.failed ≡ false }
    ensures failed { writer.new.failed ≡ is_err result }
    ensures so { IsPut result (W.contents writer.old.inner) block.old (W.contents writer.new.inner) block.new (quoted (encode_utf8_all characters.now)) }
{
    block.push(b"\"", writer)?;
    push_characters(characters, block, writer)?;
    block.push(b"\"", writer)
}

/// Pushes what stands between the quotes.
#[inline(never)]
pub(crate) fn push_characters<W: Write>(
    characters: &[char],
    block: &mut Block,
    writer: &mut Meter<W>,
) -> Result<(), Stopped>
    requires { writer.old.failed ≡ false }
    ensures failed { writer.new.failed ≡ is_err result }
    ensures so { IsPut result (W.contents writer.old.inner) block.old (W.contents writer.new.inner) block.new (escape (encode_utf8_all characters.now)) }
{
    for character in characters {
        push_character(*character, block, writer)?;
    }
    Ok(())
}

/// Pushes what stands for a character. Most are of ASCII with nothing to escape.
fn push_character<W: Write>(
    character: char,
    block: &mut Block,
    writer: &mut Meter<W>,
) -> Result<(), Stopped>
    requires { writer.old.failed ≡ false }
    ensures failed { writer.new.failed ≡ is_err result }
    ensures so { IsPut result (W.contents writer.old.inner) block.old (W.contents writer.new.inner) block.new (escape (encode_utf8 character)) }
{
    match plain_byte(character) {
        Some(byte) => block.push(&[byte], writer),
        None => push_bytes(character.encode_utf8(&mut [0; 4]).as_bytes(), block, writer),
    }
}

/// Pushes bytes, each escaped if need be.
fn push_bytes<W: Write>(
    bytes: &[u8],
    block: &mut Block,
    writer: &mut Meter<W>,
) -> Result<(), Stopped>
    requires { writer.old.failed ≡ false }
    ensures failed { writer.new.failed ≡ is_err result }
    ensures so { IsPut result (W.contents writer.old.inner) block.old (W.contents writer.new.inner) block.new (escape bytes.now) }
{
    for byte in bytes {
        push_byte(*byte, block, writer)?;
    }
    Ok(())
}

/// Pushes one byte, escaped if need be.
#[tactic(auto, unfolding(json::specs::Print::escape_byte))]
fn push_byte<W: Write>(byte: u8, block: &mut Block, writer: &mut Meter<W>) -> Result<(), Stopped>
    requires { writer.old.failed ≡ false }
    ensures failed { writer.new.failed ≡ is_err result }
    ensures so { IsPut result (W.contents writer.old.inner) block.old (W.contents writer.new.inner) block.new (escape_byte byte) }
{
    let letter = escape_letter(byte);
    if letter > 0 {
        return block.push(&[b'\\', letter], writer);
    }
    if byte < 0x20 {
        return block.push(
            &[b'\\', b'u', b'0', b'0', hex(byte / 16), hex(byte % 16)],
            writer,
        );
    }
    block.push(&[byte], writer)
}

/// What follows the backslash in the short escape of a byte, or 0 if it has none.
fn escape_letter(byte: u8) -> u8
    ensures { result ≡ escape_letter byte }
{
    match byte {
        b'"' | b'\\' => byte,
        8 => b'b',
        12 => b'f',
        b'\n' => b'n',
        b'\r' => b'r',
        b'\t' => b't',
        _ => 0,
    }
}

/// A digit in base 16.
fn hex(digit: u8) -> u8
    requires { digit < 16 }
    ensures { result ≡ digit_char digit }
{
    if digit < 10 {
        b'0' + digit
    } else {
        b'a' - 10 + digit
    }
}
