//! The tokens of a file around its fault.

use pg_file_tokens::{Lexeme, Mark, Token};

/// The tokens of a file, and its characters.
#[derive(Clone, Copy)]
pub(crate) struct Tokens<'f> {
    pub(crate) text: &'f [char],
    pub(crate) lexemes: &'f [Lexeme],
}

impl<'f> Tokens<'f> {
    /// The token with this number, if there is one.
    pub(crate) fn token(&self, number: usize) -> Option<&'f Token> {
        match self.lexemes.get(number) {
            Some(lexeme) => Some(&lexeme.token),
            None => None,
        }
    }

    /// Where the token with this number stands, or the end of the file if there is none.
    pub(crate) fn place(&self, number: usize) -> usize {
        match self.lexemes.get(number) {
            Some(lexeme) => lexeme.place,
            None => self.text.len(),
        }
    }

    /// The characters of the token with this number; empty if there is none.
    pub(crate) fn written(&self, number: usize) -> &'f [char] {
        let place = self.place(number);
        self.text.get(place..self.end(place)).unwrap_or(&[])
    }

    /// The number of the first token that begins at a place or after it.
    pub(crate) fn number_at(&self, place: usize) -> usize {
        self.lexemes
            .iter()
            .take_while(|lexeme| lexeme.place < place)
            .count()
    }

    /// The name at the token with this number, if it is a name.
    pub(crate) fn name(&self, number: usize) -> Option<&'f [char]> {
        match self.token(number) {
            Some(Token::Name(name)) => Some(name.as_slice()),
            Some(
                Token::Number(_)
                | Token::Literal(_)
                | Token::Mark(_)
                | Token::WrongLiteral
                | Token::Bad,
            )
            | None => None,
        }
    }

    /// Whether the token with this number is this mark.
    pub(crate) fn is_mark(&self, number: usize, mark: Mark) -> bool {
        match self.token(number) {
            Some(token) => token.is_mark(mark),
            None => false,
        }
    }

    /// Whether the token with this number is this word.
    pub(crate) fn is_word(&self, number: usize, word: &str) -> bool {
        match self.token(number) {
            Some(token) => token.is_word(word),
            None => false,
        }
    }

    /// The number of the first token of the item that a token belongs to.
    pub(crate) fn item(&self, number: usize) -> usize {
        let mut first: usize = 0;
        for before in 0..number {
            if self.is_mark(before, Mark::Semicolon) {
                first = before.saturating_add(1);
            }
        }
        first
    }

    /// The end of what stands at a place: a name, a number, a literal with its quotes, or one character.
    pub(crate) fn end(&self, place: usize) -> usize {
        match self.text.get(place) {
            Some('"') => self.end_of_literal(place),
            Some(c) if is_in_name(*c) => self.end_of_name(place),
            Some('.') if self.text.get(place.saturating_add(1)).copied() == Some('.') => {
                place.saturating_add(2)
            }
            Some(_) => place.saturating_add(1),
            None => place,
        }
    }

    fn end_of_name(&self, place: usize) -> usize {
        for at in place..self.text.len() {
            match self.text.get(at) {
                Some(c) if is_in_name(*c) => {}
                Some(_) | None => return at,
            }
        }
        self.text.len()
    }

    /// The place after the closing quote of a literal, or the end of the line if it isn't closed.
    fn end_of_literal(&self, place: usize) -> usize {
        let mut is_escaped = true;
        for at in place..self.text.len() {
            match self.text.get(at) {
                Some('\n') | None => return at,
                Some('"') if !is_escaped => return at.saturating_add(1),
                Some('\\') if !is_escaped => is_escaped = true,
                Some(_) => is_escaped = false,
            }
        }
        self.text.len()
    }
}

/// Whether a character may stand in a name.
pub(crate) fn is_in_name(c: char) -> bool {
    c.is_ascii_alphanumeric() || c == '_'
}
