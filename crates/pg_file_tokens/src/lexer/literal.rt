//! Literals: characters between quotes, on one line.
//!
//! A wrong escape doesn't end a literal: the characters after its backslash are read as plain ones, so the literal ends
//! where a reader of the file sees it end.
ghost use Rattle.std.specs.Prelude.{◌≡◌, IfOk};
ghost use Rattle.pg_file_tokens.specs.Lexing.{literal_at, literal_prefix};
ghost use Rattle.pg_file_tokens.specs.View.{prefix_of};

use super::escape::escape;
use crate::token::{Prefix, Token};
use std::alloc::{AllocError, Global};

/// The literal whose opening quote is just before the characters.
pub fn literal(alloc: Global, characters: &[char]) -> Result<Prefix<'_>, AllocError>
    ensures { IfOk result (λ prefix. prefix_of prefix ≡ literal_prefix (literal_at characters.now)) }
{
    let mut text = Vec::new(alloc);
    let mut is_wrong = false;
    let mut rest = characters;
    while let [first, after @ ..] = rest {
        rest = after;
        match *first {
            '"' if is_wrong => return Ok(Prefix::Token(Token::WrongLiteral, rest)),
            '"' => return Ok(Prefix::Token(Token::Literal(text), rest)),
            '\n' => return Ok(Prefix::Bad),
            '\\' => match escape(after) {
                Some((c, after)) => {
                    text.push(c)?;
                    rest = after;
                }
                None => is_wrong = true,
            },
            c => text.push(c)?,
        }
    }
    Ok(Prefix::Bad)
}
