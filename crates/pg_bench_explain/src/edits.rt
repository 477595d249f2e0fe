//! Changes that cure findings, each as a single edit of the file.
//!
//! A change rewrites items, removes rules and inserts items. Its edit goes from the first item that is rewritten or removed to the last, and keeps what
//! stands between them. Items are recognized by what they begin with, up to their names, which no change touches.

use crate::cures::push_of;
use pg_bench_grammar::LoadedFile;
use pg_explain_comparison::Kept;
use pg_explain_cures::Cure;
use pg_explain_drafts::{item_spans, slice_of};
use pg_explain_json::{Spots, push_help};
use pg_file_items::{Item, Span};
use pg_text::utf8;
use std::alloc::{AllocError, Global};

/// The characters of a file that are replaced, and what replaces them. There are none until the edit has begun.
#[derive(Drop)]
pub(crate) struct Edit<'e> {
    /// The characters of the file.
    file: &'e [char],
    /// The items of the change that aren't put into the text yet.
    items: &'e [String],
    pub(crate) is_begun: bool,
    pub(crate) span: Span,
    pub(crate) text: String,
}

impl<'e> Edit<'e> {
    /// An edit of a file that replaces nothing yet, for a change with these items.
    fn nothing(alloc: Global, file: &'e [char], items: &'e [String]) -> Edit<'e> {
        Edit {
            file,
            items,
            is_begun: false,
            span: Span { first: 0, after: 0 },
            text: String::new(alloc),
        }
    }

    /// Extends the edit over an item of the file, if the change rewrites it or takes it out. The item is rewritten if one of the items left begins like it;
    /// the ones before that are new.
    fn go_over(
        &mut self,
        alloc: Global,
        item: &Item,
        span: Span,
        taken_out: &[String],
    ) -> Result<(), AllocError> {
        let Some(head) = head_of(item, span) else {
            return Ok(());
        };
        let head = utf8(alloc, slice_of(self.file, head))?;
        if let Some(place) = place_in(self.items, head.as_str()) {
            self.go_on(alloc, span)?;
            return self.put(place);
        }
        if is_in(taken_out, head.as_str()) {
            self.go_on(alloc, with_line_feed(self.file, span))?;
        }
        Ok(())
    }

    /// Extends the edit to the end of this later span, and keeps what stands between.
    fn go_on(&mut self, alloc: Global, span: Span) -> Result<(), AllocError> {
        if self.is_begun {
            let first = self.span.after;
            let after = span.first;
            let between = utf8(alloc, slice_of(self.file, Span { first, after }))?;
            self.text.push_str(between.as_str())?;
        } else {
            self.is_begun = true;
            self.span.first = span.first;
        }
        self.span.after = span.after;
        Ok(())
    }

    /// Appends the items left up to and including the one at a place, each on a line of its own.
    fn put(&mut self, place: usize) -> Result<(), AllocError> {
        let (put, left) = cut_behind(self.items, place);
        self.items = left;
        let mut joint = "";
        for item in put {
            self.text.push_str(joint)?;
            self.text.push_str(item.as_str())?;
            joint = "\n";
        }
        Ok(())
    }
}

/// Appends a change as a field of a line of JSON, or that there is none.
pub(crate) fn push_change(
    alloc: Global,
    fields: &mut String,
    loaded: &LoadedFile,
    spots: &Spots,
    cure: Option<&Option<Cure>>,
) -> Result<(), AllocError> {
    match cure {
        Some(Some(cure)) => push_cure(alloc, fields, loaded, spots, cure),
        Some(None) | None => fields.push_str(",\"help\":null"),
    }
}

/// Appends this change as a field.
fn push_cure(
    alloc: Global,
    fields: &mut String,
    loaded: &LoadedFile,
    spots: &Spots,
    cure: &Cure,
) -> Result<(), AllocError> {
    let edit = edit_of(alloc, loaded, cure)?;
    if !edit.is_begun {
        return fields.push_str(",\"help\":null");
    }
    let words = said_of(alloc, cure)?;
    let text = edit.text.as_str();
    push_help(alloc, fields, spots, edit.span, text, words.as_str())
}

/// The edit for a change.
pub(crate) fn edit_of<'e>(
    alloc: Global,
    loaded: &'e LoadedFile,
    cure: &'e Cure,
) -> Result<Edit<'e>, AllocError> {
    let spans = item_spans(alloc, &loaded.syntax.lexemes)?;
    let mut edit = Edit::nothing(alloc, loaded.characters.as_slice(), cure.items.as_slice());
    for (number, span) in spans.iter().enumerate() {
        if let Some(item) = loaded.syntax.items.get(number) {
            edit.go_over(alloc, item, *span, &cure.taken_out)?;
        }
    }
    Ok(edit)
}

/// What an item begins with, up to the end of its name, if it has one.
fn head_of(item: &Item, span: Span) -> Option<Span> {
    let after = match item {
        Item::Class {
            name,
            name_place,
            ..
        }
        | Item::Word {
            name,
            name_place,
            ..
        } => name_place.saturating_add(name.len()),
        Item::Rule { name, place, .. } => place.saturating_add(name.len()),
        Item::Operators { .. } | Item::Table { .. } | Item::Start { .. } => return None,
    };
    Some(Span {
        first: span.first,
        after,
    })
}

/// The items up to and including the one at a place, and the others.
fn cut_behind(items: &[String], place: usize) -> (&[String], &[String]) {
    if place < items.len() {
        items.split_at(place + 1)
    } else {
        (items, &[])
    }
}

/// The index of the first of these items that begins with `head`.
fn place_in(items: &[String], head: &str) -> Option<usize> {
    items
        .iter()
        .position(|item| begins_with(item.as_str(), head))
}

/// Whether an item begins with `head`, and its name ends there.
fn begins_with(item: &str, head: &str) -> bool {
    match item.strip_prefix(head) {
        Some(rest) => !goes_on(rest),
        None => false,
    }
}

/// Whether the name continues in the rest of the item.
fn goes_on(rest: &str) -> bool {
    match rest.as_bytes() {
        [first, ..] => first.is_ascii_alphanumeric() || *first == b'_',
        [] => false,
    }
}

/// Whether this is one of these names.
fn is_in(names: &[String], head: &str) -> bool {
    names.iter().any(|name| name.as_str() == head)
}

/// The span with the line feed after it, if there is one.
fn with_line_feed(file: &[char], span: Span) -> Span {
    match file.get(span.after) {
        Some('\n') => Span {
            first: span.first,
            after: span.after.saturating_add(1),
        },
        Some(_) | None => span,
    }
}

/// The words about a change: what it is, and its effects.
pub(crate) fn said_of(alloc: Global, cure: &Cure) -> Result<String, AllocError> {
    let words = cure.change.words();
    let then = if cure.accepted {
        "the grammar is accepted"
    } else {
        "the finding is gone"
    };
    let mut said = format!(in alloc; "{words}; with this change {then}")?;
    push_kept(alloc, &mut said, &cure.kept)?;
    Ok(said)
}

/// Appends what becomes of the language, as far as texts were tried.
fn push_kept(alloc: Global, said: &mut String, kept: &Kept) -> Result<(), AllocError> {
    push_some(alloc, said, &kept.lost, " isn't derived any more")?;
    push_some(
        alloc,
        said,
        &kept.unknown,
        " is perhaps not derived any more",
    )?;
    push_some(alloc, said, &kept.gained, " is now derived too")?;
    push_some(
        alloc,
        said,
        &kept.other,
        " gets a different tree than before",
    )?;
    push_same(alloc, said, kept.same)
}

/// Appends a text, if there is one, and words about it.
fn push_some(
    alloc: Global,
    said: &mut String,
    text: &Option<Vec<char>>,
    words: &'static str,
) -> Result<(), AllocError> {
    match text {
        Some(text) => push_of(alloc, said, text.as_slice(), words),
        None => Ok(()),
    }
}

/// Appends how many texts are parsed to the same trees, if any are.
fn push_same(alloc: Global, said: &mut String, same: usize) -> Result<(), AllocError> {
    if same == 0 {
        return Ok(());
    }
    let words = format!(in alloc;
        "; texts of the old grammar that are parsed to the same trees: {same}"
    )?;
    said.push_str(words.as_str())
}
