//! Spans of characters.

use pg_file_items::Span;
use pg_file_tokens::{Lexeme, Mark};
use std::alloc::{AllocError, Global};

/// The characters of a span; empty if it goes past the end.
pub fn slice_of(text: &[char], span: Span) -> &[char] {
    if span.first <= span.after && span.after <= text.len() {
        &text[span.first..span.after]
    } else {
        &[]
    }
}

/// The spans of items, each from its first token to its semicolon.
pub fn item_spans(alloc: Global, lexemes: &[Lexeme]) -> Result<Vec<Span>, AllocError> {
    let mut spans = Vec::new(alloc);
    let mut first = 0;
    let mut is_begun = false;
    for lexeme in lexemes {
        if !is_begun {
            first = lexeme.place;
        }
        is_begun = !lexeme.token.is_mark(Mark::Semicolon);
        if !is_begun {
            let after = lexeme.place.saturating_add(1);
            spans.push(Span { first, after })?;
        }
    }
    Ok(spans)
}
