//! The form whose parentheses are open around a place.

use crate::lines::{Line, form_line};
use crate::spot::spot_before;
use pg_file_items::Span;
use pg_file_tokens::{Lexeme, Mark, Token};
use pg_server_names::tokens;
use std::alloc::{AllocError, Global};

/// How a form is written, and which of its parts is being written.
#[derive(Drop)]
pub struct Signature {
    pub line: Line,
    /// The bytes of each part in `line.written`, which is ASCII.
    pub parts: Vec<Span>,
    /// The number of the part that the place is in. A place behind the last part is in it, if it can be repeated; else this is the number of parts.
    pub active: usize,
}

/// The innermost form around a place whose parentheses are open, inside a literal too (ours); `None` outside of all. Fails where memory runs out.
pub fn signature_at(
    alloc: Global,
    text: &[char],
    place: usize,
) -> Result<Option<Signature>, AllocError> {
    let lexemes = tokens(alloc, text)?;
    let around = form_around(alloc, lexemes.as_slice(), place)?;
    match around {
        Some((line, argument)) => some_signature(alloc, line, argument),
        None => Ok(None),
    }
}

/// How the form around a place is written, and the number of the argument there.
fn form_around(
    alloc: Global,
    lexemes: &[Lexeme],
    place: usize,
) -> Result<Option<(Line, usize)>, AllocError> {
    let spot = spot_before(alloc, lexemes, place, place)?;
    let group = spot.surroundings.innermost();
    match group.form {
        Some(form) => {
            let line = form_line(form, has_symbol(lexemes, spot.count));
            Ok(Some((line, group.argument)))
        }
        None => Ok(None),
    }
}

/// Whether the second argument in the innermost parentheses that are open behind the first tokens is a literal.
fn has_symbol(lexemes: &[Lexeme], count: usize) -> bool {
    let Some(open) = open_before(lexemes, count) else {
        return false;
    };
    match lexemes.get(open..) {
        Some([_, builder, comma, symbol, ..]) => {
            matches!(builder.token, Token::Name(_))
                && comma.token.is_mark(Mark::Comma)
                && matches!(symbol.token, Token::Literal(_) | Token::WrongLiteral)
        }
        Some(_) | None => false,
    }
}

/// The number of the innermost opening parenthesis that isn't closed among the first tokens.
fn open_before(lexemes: &[Lexeme], count: usize) -> Option<usize> {
    let mut closed: usize = 0;
    let mut number = count;
    let before = lexemes.get(..count)?;
    for lexeme in before.iter().rev() {
        number = number.saturating_sub(1);
        if lexeme.token.is_mark(Mark::Close) {
            closed = closed.saturating_add(1);
        } else if lexeme.token.is_mark(Mark::Open) {
            if closed == 0 {
                return Some(number);
            }
            closed -= 1;
        }
    }
    None
}

fn some_signature(
    alloc: Global,
    line: Line,
    argument: usize,
) -> Result<Option<Signature>, AllocError> {
    let parts = parts_of(alloc, line.written)?;
    let active = active(line.written, parts.len(), argument);
    Ok(Some(Signature {
        line,
        parts,
        active,
    }))
}

/// The part that an argument is: the last one for each further argument, if what is written says that there may be more.
fn active(written: &str, count: usize, argument: usize) -> usize {
    if written.contains("..") {
        argument.min(count.saturating_sub(1))
    } else {
        argument.min(count)
    }
}

/// The bytes of the parts between the parentheses, which commas separate.
fn parts_of(alloc: Global, written: &str) -> Result<Vec<Span>, AllocError> {
    let mut parts = Vec::new(alloc);
    let mut first: usize = 0;
    for (place, byte) in written.as_bytes().iter().enumerate() {
        match *byte {
            b'(' => first = place.saturating_add(1),
            b',' | b')' => {
                parts.push(Span {
                    first,
                    after: place,
                })?;
                first = place.saturating_add(2);
            }
            _ => {}
        }
    }
    Ok(parts)
}
