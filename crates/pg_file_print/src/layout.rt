//! Printing tokens one after another, with spaces between them.
//!
//! Whether a space comes before a token depends on the token and on the end of the text so far, so that is kept beside the text.

ghost use Rattle.std.specs.Prelude.{◌≡◌, ◌++◌, ◌∷◌, [], false, OnOk};
ghost use Rattle.std.specs.Fmt.{digits, decimal};
ghost use Rattle.std.specs.Str.{chars, bytes_eq};
ghost use Rattle.pg_file_tokens.specs.Tokens as tokens;
ghost use Rattle.pg_file_print.specs.Printed.{escaped, quoted};
ghost use Rattle.pg_file_print.specs.Layout.{comes_before_class, nothing_laid, with_token, printed_mark, mark_edge, edge_after, space, mark_space};

use pg_file_tokens::{Mark, is_word};
use pg_text::characters_of;
use std::alloc::{AllocError, Global};
use std::marker::Model;

/// The end of the text so far, as far as the space before the next token depends on it.
#[derive(Clone, Copy, PartialEq, Eq)]
pub enum Edge {
    /// Nothing yet, `(`, `..` or the end of a line. No space follows.
    Tight,
    /// A name that no class expression may follow. No space follows before a parenthesis.
    Word,
    /// Anything else.
    Loose,
}

/// The text printed so far, seen as its characters and how they end.
#[derive(Drop)]
pub struct Layout {
    text: Vec<char>,
    edge: Edge,
}

impl Model for Layout {
    ghost use Rattle.pg_file_print.specs.Layout.{Laid};

    ghost Value = { Laid };

    ghost view = { λ l. record { text = l.text.items; edge = l.edge } };
}

impl Layout {
    /// The empty text. It takes no memory.
    pub fn new(alloc: Global) -> Layout
        ensures { result ≡ nothing_laid }
    {
        Layout {
            text: Vec::new(alloc),
            edge: Edge::Tight,
        }
    }

    /// Its characters.
    pub fn into_characters(self) -> Vec<char>
        ensures { result.items ≡ self.text }
    {
        self.text
    }

    /// Prints a name.
    pub fn put_name(&mut self, text: &[char]) -> Result<(), AllocError>
        ensures { OnOk result (self.new ≡ with_token self.old (tokens.name text.now)) }
    {
        put_space(&mut self.text, self.edge)?;
        self.text.extend_from_slice(text)?;
        self.edge = edge_of_name(text);
        Ok(())
    }

    /// Prints a name that is kept as a `str`.
    pub fn put_text(&mut self, alloc: Global, text: &str) -> Result<(), AllocError>
        ensures { OnOk result (self.new ≡ with_token self.old (tokens.name (chars text.now))) }
    {
        let characters = characters_of(alloc, text)?;
        self.put_name(characters.as_slice())
    }

    /// Prints a word, which is ASCII.
    pub fn put_word(&mut self, alloc: Global, word: &str) -> Result<(), AllocError>
        ensures { OnOk result (self.new ≡ with_token self.old (tokens.name word.now)) }
    {
        let mut characters = Vec::new(alloc);
        put_ascii(&mut characters, word)?;
        self.put_name(characters.as_slice())
    }

    /// Prints a number.
    pub fn put_number(&mut self, alloc: Global, number: usize) -> Result<(), AllocError>
        ensures { OnOk result (self.new ≡ with_token self.old (tokens.number (decimal number))) }
    {
        put_space(&mut self.text, self.edge)?;
        let digits = format!(in alloc; "{number}")?;
        put_ascii(&mut self.text, digits.as_str())?;
        self.edge = Edge::Loose;
        Ok(())
    }

    /// Prints a literal, in quotes.
    pub fn put_literal(&mut self, alloc: Global, text: &[char]) -> Result<(), AllocError>
        ensures { OnOk result (self.new ≡ with_token self.old (tokens.literal text.now)) }
    {
        put_space(&mut self.text, self.edge)?;
        put_quoted(alloc, &mut self.text, text)?;
        self.edge = Edge::Loose;
        Ok(())
    }

    /// Prints a mark; a semicolon ends the line.
    pub fn put_mark(&mut self, mark: Mark) -> Result<(), AllocError>
        ensures { OnOk result (self.new ≡ with_token self.old (tokens.mark mark)) }
    {
        put_mark_space(&mut self.text, self.edge, mark)?;
        put_ascii(&mut self.text, mark_text(mark))?;
        self.edge = edge_of_mark(mark);
        Ok(())
    }
}

/// Prints the characters of a word, which is ASCII.
fn put_ascii(out: &mut Vec<char>, word: &str) -> Result<(), AllocError>
    ensures { OnOk result (out.new.items ≡ out.old.items ++ word.now) }
{
    for byte in word.as_bytes() {
        out.push(char::from(*byte))?;
    }
    Ok(())
}

/// Prints a space, unless the text ends tightly.
fn put_space(out: &mut Vec<char>, edge: Edge) -> Result<(), AllocError>
    ensures { OnOk result (out.new.items ≡ out.old.items ++ space edge) }
{
    match edge {
        Edge::Tight => Ok(()),
        Edge::Word | Edge::Loose => {
            out.push(' ')?;
            Ok(())
        }
    }
}

/// Prints the space before a mark, if there is one.
fn put_mark_space(out: &mut Vec<char>, edge: Edge, mark: Mark) -> Result<(), AllocError>
    ensures { OnOk result (out.new.items ≡ out.old.items ++ mark_space edge mark) }
{
    match mark {
        Mark::Open if edge == Edge::Word => Ok(()),
        Mark::Open | Mark::Equals | Mark::Bar => put_space(out, edge),
        Mark::Close | Mark::Comma | Mark::Semicolon | Mark::Dots => Ok(()),
    }
}

/// The characters of a mark; a semicolon ends the line.
fn mark_text(mark: Mark) -> &'static str
    ensures { result.now ≡ printed_mark mark }
{
    match mark {
        Mark::Open => "(",
        Mark::Close => ")",
        Mark::Comma => ",",
        Mark::Semicolon => ";\n",
        Mark::Equals => "=",
        Mark::Bar => "|",
        Mark::Dots => "..",
    }
}

fn edge_of_mark(mark: Mark) -> Edge
    ensures { result ≡ mark_edge mark }
{
    match mark {
        Mark::Open | Mark::Semicolon | Mark::Dots => Edge::Tight,
        Mark::Close | Mark::Comma | Mark::Equals | Mark::Bar => Edge::Loose,
    }
}

fn edge_of_name(text: &[char]) -> Edge
    ensures { result ≡ edge_after (tokens.name text.now) }
{
    if comes_before_class(text) {
        Edge::Loose
    } else {
        Edge::Word
    }
}

/// Whether a class expression may follow this word, which may begin with a parenthesis.
fn comes_before_class(word: &[char]) -> bool
    ensures { result ≡ comes_before_class word.now }
{
    is_word("not", word)
        || is_word("head", word)
        || is_word("rest", word)
        || is_word("operators", word)
        || is_word("gap", word)
}

/// Prints a literal, in quotes.
fn put_quoted(alloc: Global, out: &mut Vec<char>, text: &[char]) -> Result<(), AllocError>
    ensures { OnOk result (out.new.items ≡ out.old.items ++ quoted text.now) }
{
    out.push('"')?;
    for c in text {
        put_escaped(alloc, out, *c)?;
    }
    out.push('"')?;
    Ok(())
}

/// Prints a character of a literal, or its escape.
fn put_escaped(alloc: Global, out: &mut Vec<char>, c: char) -> Result<(), AllocError>
    ensures { OnOk result (out.new.items ≡ out.old.items ++ escaped c) }
{
    match c {
        '"' => put_ascii(out, "\\\""),
        '\\' => put_ascii(out, "\\\\"),
        '\n' => put_ascii(out, "\\n"),
        '\t' => put_ascii(out, "\\t"),
        '\r' => put_ascii(out, "\\r"),
        ' '..='~' => {
            out.push(c)?;
            Ok(())
        }
        _ => {
            let code = u32::from(c);
            let escape = format!(in alloc; "\\u{{{code:x}}}")?;
            put_ascii(out, escape.as_str())
        }
    }
}
