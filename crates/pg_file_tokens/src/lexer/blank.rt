//! White space and comments (`#` to the end of the line).
//!
//! They separate tokens and mean nothing else. The lexer skips them, and the parser never sees them. A comment ends
//! before its line feed, which is white space, so the last line needs no line feed.
ghost use Rattle.std.specs.Prelude.{◌≡◌, ◌≤◌, length, drop};
ghost use Rattle.std.specs.List.{prefix_len};
ghost use Rattle.pg_file_tokens.specs.Lexical as lexical;
ghost use Rattle.pg_file_tokens.specs.Lexing.{after_line};

/// Whether the character is white space: a space, a tab, a carriage return or a line feed.
pub fn is_blank(c: char) -> bool
    ensures { result ≡ lexical.is_blank c }
{
    c == ' ' || c == '\t' || c == '\r' || c == '\n'
}

fn line_len(characters: &[char]) -> usize
    ensures len { result ≡ prefix_len lexical.isnt_line_feed characters.now }
    ensures within { result ≤ length characters.now }
{
    characters.iter().take_while(|c| **c != '\n').count()
}

/// The characters from the end of the line on.
pub fn skip_line(characters: &[char]) -> &[char]
    ensures { result.now ≡ after_line characters.now }
{
    characters.split_at(line_len(characters)).1
}
