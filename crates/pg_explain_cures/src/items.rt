//! The items of a changed file that differ from before.

use pg_explain_drafts::{Changed, item_spans, slice_of};
use pg_file_items::Span;
use pg_file_tokens::lex;
use pg_text::utf8;
use std::alloc::{AllocError, Global};

/// The items that are changed or new, as they stand in the changed text, each from its first token to its semicolon.
pub(crate) fn changed_items(alloc: Global, changed: &Changed) -> Result<Vec<String>, AllocError> {
    let lexemes = lex(alloc, changed.text.as_slice())?;
    let mut items = Vec::new(alloc);
    for span in &item_spans(alloc, &lexemes)? {
        if !is_unchanged(changed, *span) {
            items.push(utf8(alloc, slice_of(changed.text.as_slice(), *span))?)?;
        }
    }
    Ok(items)
}

/// Whether the characters of a span stood side by side in the file.
pub(crate) fn is_unchanged(changed: &Changed, span: Span) -> bool {
    let Some(origin) = changed.origin(span.first) else {
        return false;
    };
    for place in span.first..span.after {
        let wanted = origin.saturating_add(place.saturating_sub(span.first));
        match changed.origin(place) {
            Some(found) if found == wanted => {}
            Some(_) | None => return false,
        }
    }
    true
}
