//! Names and numbers: the longest runs of their characters.
//!
//! A letter right after a number begins a name, so `12ab` is two tokens.
ghost use Rattle.std.specs.Prelude.{◌≡◌, ◌≤◌, length, take, drop, IfOk};
ghost use Rattle.std.specs.List.{prefix_len};
ghost use Rattle.std.specs.Char.{is_ascii_digit};
ghost use Rattle.pg_file_tokens.specs.Lexical.{goes_in_name};
ghost use Rattle.pg_file_tokens.specs.Lexing.{name_at, number_at};
ghost use Rattle.pg_file_tokens.specs.View.{prefix_of};

use crate::token::{Prefix, Token};
use std::alloc::{AllocError, Global};

fn goes_on(c: char) -> bool
    ensures { result ≡ goes_in_name c }
{
    c.is_ascii_alphanumeric() || c == '_'
}

fn name_len(characters: &[char]) -> usize
    ensures len { result ≡ prefix_len goes_in_name characters.now }
    ensures within { result ≤ length characters.now }
{
    characters.iter().take_while(|c| goes_on(**c)).count()
}

fn number_len(characters: &[char]) -> usize
    ensures len { result ≡ prefix_len is_ascii_digit characters.now }
    ensures within { result ≤ length characters.now }
{
    characters.iter().take_while(|c| c.is_ascii_digit()).count()
}

/// The name at the front, which begins with a letter.
pub fn name(alloc: Global, characters: &[char]) -> Result<Prefix<'_>, AllocError>
    ensures { IfOk result (λ prefix. prefix_of prefix ≡ name_at characters.now) }
{
    let (text, rest) = characters.split_at(name_len(characters));
    Ok(Prefix::Token(Token::Name(text.to_vec(alloc)?), rest))
}

/// The number at the front, which begins with a digit.
pub fn number(alloc: Global, characters: &[char]) -> Result<Prefix<'_>, AllocError>
    ensures { IfOk result (λ prefix. prefix_of prefix ≡ number_at characters.now) }
{
    let (text, rest) = characters.split_at(number_len(characters));
    Ok(Prefix::Token(Token::Number(text.to_vec(alloc)?), rest))
}
