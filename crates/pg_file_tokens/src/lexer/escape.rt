//! Escapes in a literal: `\"`, `\\`, `\n`, `\t`, `\r` and `\u{H}`.
//!
//! H is one to six hexadecimal digits, in either case, of the code of a Unicode scalar value.
ghost use Rattle.std.specs.Prelude.{◌≡◌, ◌≤◌, length};
ghost use Rattle.std.specs.List.{prefix_len};
ghost use Rattle.pg_file_tokens.specs.Lexical as lexical;
ghost use Rattle.pg_file_tokens.specs.Lexing.{code_point, hex_value, escape_at, unicode_at};
ghost use Rattle.pg_file_tokens.specs.View.{escape_read};

fn short_escape(letter: char) -> Option<char>
    ensures { result ≡ lexical.short_escape letter }
{
    match letter {
        '"' => Some('"'),
        '\\' => Some('\\'),
        'n' => Some('\n'),
        't' => Some('\t'),
        'r' => Some('\r'),
        _ => None,
    }
}

fn hex_len(characters: &[char]) -> usize
    ensures len { result ≡ prefix_len lexical.is_hex characters.now }
    ensures within { result ≤ length characters.now }
{
    characters.iter().take_while(|c| c.is_digit(16)).count()
}

#[tactic(auto, using(crate::proofs::LexerLemmas::Hex::hex_more))]
fn hex_number(digits: &[char]) -> Option<u32>
    requires { length digits.now ≤ 6 }
    ensures { result ≡ hex_value digits.now }
{
    let mut value: u32 = 0;
    for digit in digits {
        value = value * 16 + digit.to_digit(16)?;
    }
    Some(value)
}

fn scalar(digits: &[char]) -> Option<char>
    ensures { result ≡ code_point digits.now }
{
    if digits.is_empty() || digits.len() > 6 {
        return None;
    }
    char::from_u32(hex_number(digits)?)
}

/// The character whose code stands in braces, and the characters after it. The given characters start after `u`.
fn unicode(characters: &[char]) -> Option<(char, &[char])>
    ensures { escape_read result ≡ unicode_at characters.now }
{
    let ['{', inner @ ..] = characters else {
        return None;
    };
    let (digits, after) = inner.split_at(hex_len(inner));
    let ['}', rest @ ..] = after else {
        return None;
    };
    Some((scalar(digits)?, rest))
}

/// The character that an escape names, and the characters after it. The given characters start after the backslash.
pub fn escape(characters: &[char]) -> Option<(char, &[char])>
    ensures { escape_read result ≡ escape_at characters.now }
{
    match characters {
        [] => None,
        ['u', after @ ..] => unicode(after),
        [letter, rest @ ..] => Some((short_escape(*letter)?, rest)),
    }
}
