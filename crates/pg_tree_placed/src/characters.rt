//! Characters that are their own text in JSON.

ghost use Rattle.std.specs.Prelude.{◌≡◌, ◌∷◌, ◌<◌, [], true, false, IfSome};
ghost use Rattle.std.specs.Char.{encode_utf8};
ghost use Rattle.json.specs.Print.{escape, escape_byte};

/// The byte of a character that is its own text in JSON.
#[tactic(auto, using(crate::proofs::Plain::escape_one))]
pub(crate) fn plain_byte(character: char) -> Option<u8>
    ensures { IfSome result (λ byte. escape (encode_utf8 character) ≡ byte ∷ []) }
{
    if character < '\u{80}' && !has_escape(character as u8) {
        Some(character as u8)
    } else {
        None
    }
}

/// Whether a byte has to be escaped.
#[tactic(auto, unfolding(json::specs::Print::escape_byte))]
fn has_escape(byte: u8) -> bool
    ensures { result ≡ false → escape_byte byte ≡ byte ∷ [] }
{
    byte < 0x20 || byte == b'"' || byte == b'\\'
}
