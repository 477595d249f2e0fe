//! The items of a file for its outline: which kind each is, where it is, and where its name is.

ghost use Rattle.std.specs.Prelude.{◌≤◌};

use crate::reading::tokens;
use crate::standing::{Before, ItemWord, begun, next_of};
use crate::surroundings::Surroundings;
use pg_file_items::Span;
use pg_file_tokens::{Lexeme, Mark, Token};
use std::alloc::{AllocError, Global};

/// An item of a file, with a fault or without.
#[derive(Clone, Copy)]
pub struct Symbol {
    pub item: ItemWord,
    /// From its first token to its semicolon; where that is missing, to the last token before the next item.
    pub whole: Span,
    /// The name that it defines, for a `table` item its symbol, and else its first word.
    pub name: Span,
    pub ghost begins: { whole.first ≤ name.first },
    pub ghost ends: { name.after ≤ whole.after },
}

/// The items of a file, in order (ours). Fails where memory runs out.
pub fn symbols(alloc: Global, text: &[char]) -> Result<Vec<Symbol>, AllocError> {
    let lexemes = tokens(alloc, text)?;
    let found = symbols_in(alloc, text, lexemes.as_slice())?;
    Ok(found)
}

/// The items that these tokens write.
fn symbols_in(alloc: Global, text: &[char], lexemes: &[Lexeme]) -> Result<Vec<Symbol>, AllocError> {
    let mut found = Vec::new(alloc);
    let mut surroundings = Surroundings::new(alloc);
    let mut symbol: Option<Symbol> = None;
    let mut rest = lexemes;
    while let [first, behind @ ..] = rest {
        let span = span_of_token(text, first);
        match begins(&surroundings, &first.token, behind) {
            Some(item) => {
                push(&mut found, symbol)?;
                symbol = Some(begun_at(item, span));
            }
            None => symbol = goes_on(symbol, &surroundings, &first.token, span),
        }
        surroundings.pass(&first.token, next_of(behind))?;
        rest = behind;
    }
    push(&mut found, symbol)?;
    Ok(found)
}

/// Appends a symbol, if there is one.
fn push(found: &mut Vec<Symbol>, symbol: Option<Symbol>) -> Result<(), AllocError> {
    if let Some(symbol) = symbol {
        found.push(symbol)?;
    }
    Ok(())
}

/// The item that a token begins.
fn begins(surroundings: &Surroundings, token: &Token, behind: &[Lexeme]) -> Option<ItemWord> {
    match token {
        Token::Name(name) => begun(surroundings.before(), name.as_slice(), next_of(behind)),
        Token::Number(_) | Token::Literal(_) | Token::Mark(_) | Token::WrongLiteral | Token::Bad =>
            None,
    }
}

/// An item that begins with this token.
fn begun_at(item: ItemWord, span: Span) -> Symbol {
    Symbol {
        item,
        whole: span,
        name: span,
    }
}

/// An item with one more token. Behind its semicolon nothing belongs to it.
fn goes_on(
    symbol: Option<Symbol>,
    surroundings: &Surroundings,
    token: &Token,
    span: Span,
) -> Option<Symbol> {
    match symbol {
        Some(symbol) if surroundings.item().is_some() => {
            let is_name = is_its_name(symbol.item, surroundings.before(), token);
            Some(with_token(symbol, is_name, span))
        }
        Some(_) | None => symbol,
    }
}

/// Whether a token is an item's name or symbol.
fn is_its_name(item: ItemWord, before: Before, token: &Token) -> bool {
    match (item, token) {
        (ItemWord::Class | ItemWord::Word, Token::Name(_)) => {
            matches!(before, Before::Class | Before::Word)
        }
        (ItemWord::Table, Token::Literal(_)) => true,
        (
            ItemWord::Class
            | ItemWord::Word
            | ItemWord::Table
            | ItemWord::Operators
            | ItemWord::Start
            | ItemWord::Rule,
            _,
        ) => false,
    }
}

/// An item that also has the characters of a token, which may be its name.
fn with_token(symbol: Symbol, is_name: bool, span: Span) -> Symbol {
    let item = symbol.item;
    let whole = Span {
        first: symbol.whole.first.min(span.first),
        after: symbol.whole.after.max(span.after),
    };
    let name = if is_name { span } else { symbol.name };
    Symbol { item, whole, name }
}

/// The characters of a token of the text.
pub fn span_of_token(text: &[char], lexeme: &Lexeme) -> Span {
    let first = lexeme.place;
    let width = match &lexeme.token {
        Token::Name(characters) | Token::Number(characters) => characters.len(),
        Token::Mark(Mark::Dots) => 2,
        Token::Literal(_) | Token::WrongLiteral => width_of_literal(text, first),
        Token::Mark(_) | Token::Bad => 1,
    };
    Span {
        first,
        after: first.saturating_add(width),
    }
}

/// How many characters a literal has with its quotes.
fn width_of_literal(text: &[char], first: usize) -> usize {
    let inside = text.get(first.saturating_add(1)..).unwrap_or(&[]);
    let mut is_escaped = false;
    let mut width: usize = 1;
    for c in inside {
        width = width.saturating_add(1);
        if *c == '"' && !is_escaped {
            return width;
        }
        is_escaped = *c == '\\' && !is_escaped;
    }
    width
}
