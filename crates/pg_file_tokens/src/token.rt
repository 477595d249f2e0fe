//! The tokens of a grammar file.
//!
//! A reserved word is a name here; the parser recognises it by its text. A `Bad` token is the last of its list, since
//! nothing after it is read. The parser relies on both.

ghost use Rattle.std.specs.Prelude.{◌≡◌};
ghost use Rattle.std.specs.List.{list_any};
ghost use Rattle.pg_file_tokens.specs.View.{token_of, is_bad_at};
ghost use Rattle.pg_file_tokens.specs.Tokens.{is_bad, is_mark, is_word};

use crate::characters::is_word;

/// A punctuation mark.
#[derive(Clone, Copy, Debug, PartialEq, Eq)]
pub enum Mark {
    /// `(`
    Open,
    /// `)`
    Close,
    /// `,`
    Comma,
    /// `;`
    Semicolon,
    /// `=`
    Equals,
    /// `|`
    Bar,
    /// `..`, between the ends of a range
    Dots,
}

/// A token, with its text if it has one.
#[derive(Debug, Drop)]
pub enum Token {
    /// An ASCII letter, and then ASCII letters, digits and `_`.
    Name(Vec<char>),
    /// ASCII digits, at least one.
    Number(Vec<char>),
    /// The text between quotes, with each escape replaced by the character that it names.
    Literal(Vec<char>),
    /// A punctuation mark.
    Mark(Mark),
    /// A closed literal with an invalid escape.
    WrongLiteral,
    /// No token begins here, or a literal begins that isn't closed on its line.
    Bad,
}

/// A token and its place.
#[derive(Debug, Drop)]
pub struct Lexeme {
    pub token: Token,
    /// The place: how many characters of the file stand before the token.
    pub place: usize,
}

/// What is at the front of some characters.
#[derive(Debug, Drop)]
pub enum Prefix<'a> {
    /// The end of the file.
    End,
    /// White space or a comment, and the rest.
    Blank(&'a [char]),
    /// A token, and the rest.
    Token(Token, &'a [char]),
    /// Neither a token nor a blank.
    Bad,
}

impl Token {
    /// Whether it is this mark.
    pub fn is_mark(&self, which: Mark) -> bool
        ensures { result ≡ is_mark which (token_of self.now) }
    {
        matches!(self, Token::Mark(mark) if *mark == which)
    }

    /// Whether it is this word, which is ASCII.
    pub fn is_word(&self, word: &str) -> bool
        ensures { result ≡ is_word word.now (token_of self.now) }
    {
        match self {
            Token::Name(text) => is_word(word, text.as_slice()),
            Token::Number(_)
            | Token::Literal(_)
            | Token::Mark(_)
            | Token::WrongLiteral
            | Token::Bad => false,
        }
    }

    /// Whether it is bad.
    pub fn is_bad(&self) -> bool
        ensures { result ≡ is_bad (token_of self.now) }
    {
        matches!(self, Token::Bad)
    }
}

/// Whether a bad token is at the place.
pub fn has_bad_at(lexemes: &[Lexeme], place: usize) -> bool
    ensures { result ≡ list_any (is_bad_at place) lexemes.now }
{
    lexemes
        .iter()
        .any(|lexeme| lexeme.place == place && lexeme.token.is_bad())
}
