//! Punctuation marks: `(` `)` `,` `;` `=` `|` and `..`.
//!
//! No mark begins another, so the first that fits is the right one. The lexer tries marks last.
ghost use Rattle.std.specs.Prelude.{◌≡◌};
ghost use Rattle.pg_file_tokens.specs.Lexing.{mark_at};
ghost use Rattle.pg_file_tokens.specs.View.{mark_read};

use crate::token::Mark;

/// The mark at the front, and the characters after it. A single `.` isn't a mark.
#[tactic(auto, unfolding(crate::specs::Lexing::mark_at))]
pub fn mark(characters: &[char]) -> Option<(Mark, &[char])>
    ensures { mark_read result ≡ mark_at characters.now }
{
    match characters {
        ['(', rest @ ..] => Some((Mark::Open, rest)),
        [')', rest @ ..] => Some((Mark::Close, rest)),
        [',', rest @ ..] => Some((Mark::Comma, rest)),
        [';', rest @ ..] => Some((Mark::Semicolon, rest)),
        ['=', rest @ ..] => Some((Mark::Equals, rest)),
        ['|', rest @ ..] => Some((Mark::Bar, rest)),
        ['.', '.', rest @ ..] => Some((Mark::Dots, rest)),
        _ => None,
    }
}
