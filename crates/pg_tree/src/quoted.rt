//! Texts in double quotes, as in JSON.
//!
//! The escapes are those that `serde_json` writes. The code that writes JSON calls this, and so does the code that shows trees.

ghost use Rattle.std.specs.Prelude.{◌≡◌, ◌++◌, ◌∷◌, ◌<◌, [], true, false, OnOk};
ghost use Rattle.std.specs.Char.{digit_char};
ghost use Rattle.json.specs.Print.{escape, escape_letter, escape_byte};
ghost use Rattle.pg_tree.specs.Json.{quoted};

use std::alloc::AllocError;

/// Appends a UTF-8 text in double quotes to some bytes (ours).
pub fn push_quoted(content: &[u8], text: &mut Vec<u8>) -> Result<(), AllocError>
    ensures { OnOk result (text.new.items ≡ text.old.items ++ quoted content.now) }
{
    text.push(b'"')?;
    push_escaped(content, text)?;
    text.push(b'"')?;
    Ok(())
}

/// Appends what stands between the quotes of a UTF-8 text (ours). Most texts have nothing to escape, and are copied at once.
pub fn push_escaped(content: &[u8], text: &mut Vec<u8>) -> Result<(), AllocError>
    ensures { OnOk result (text.new.items ≡ text.old.items ++ escape content.now) }
{
    if is_plain(content) {
        text.extend_from_slice(content)
    } else {
        push_each(content, text)
    }
}

/// Whether no byte has to be escaped.
fn is_plain(content: &[u8]) -> bool
    ensures { result ≡ true → escape content.now ≡ content.now }
{
    for byte in content {
        if has_escape(*byte) {
            return false;
        }
    }
    true
}

/// Whether a byte has to be escaped.
#[tactic(auto, unfolding(json::specs::Print::escape_byte))]
fn has_escape(byte: u8) -> bool
    ensures { result ≡ false → escape_byte byte ≡ byte ∷ [] }
{
    byte < 0x20 || byte == b'"' || byte == b'\\'
}

/// Appends bytes one by one, each escaped if need be.
fn push_each(content: &[u8], text: &mut Vec<u8>) -> Result<(), AllocError>
    ensures { OnOk result (text.new.items ≡ text.old.items ++ escape content.now) }
{
    for byte in content {
        push_byte(*byte, text)?;
    }
    Ok(())
}

/// Appends one byte of a quoted text, escaped if need be.
#[tactic(auto, unfolding(json::specs::Print::escape_byte))]
fn push_byte(byte: u8, text: &mut Vec<u8>) -> Result<(), AllocError>
    ensures { OnOk result (text.new.items ≡ text.old.items ++ escape_byte byte) }
{
    let letter = escape_letter(byte);
    if letter > 0 {
        return text.extend_from_slice(&[b'\\', letter]);
    }
    if byte < 0x20 {
        return text.extend_from_slice(&[b'\\', b'u', b'0', b'0', hex(byte / 16), hex(byte % 16)]);
    }
    text.push(byte)?;
    Ok(())
}

/// What follows the backslash in the short escape of a byte, or 0 if it has none.
fn escape_letter(byte: u8) -> u8
    ensures { result ≡ escape_letter byte }
{
    match byte {
        b'"' | b'\\' => byte,
        8 => b'b',
        12 => b'f',
        b'\n' => b'n',
        b'\r' => b'r',
        b'\t' => b't',
        _ => 0,
    }
}

/// A digit in base 16.
fn hex(digit: u8) -> u8
    requires { digit < 16 }
    ensures { result ≡ digit_char digit }
{
    if digit < 10 {
        b'0' + digit
    } else {
        b'a' - 10 + digit
    }
}
