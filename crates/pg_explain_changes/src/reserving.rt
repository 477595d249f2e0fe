//! Keywords that are reserved.
//!
//! A keyword is told apart from words if it is reserved, tried, and not followed by a character that continues a word.

use crate::runs::trimmed;
use crate::strings::lexeme_of;
use crate::trying::{Class, guard_string};
use pg_explain_drafts::{Change, Draft, Forms, Kind, Met, push_draft};
use pg_file_items::{Item, Span};
use pg_file_tokens::{Lexeme, Mark};
use pg_text::Characters;
use std::alloc::{AllocError, Global};

/// Drafts that reserve strings of one side for words of another.
pub(crate) fn push_reserved(
    alloc: Global,
    forms: &Forms,
    sides: &[Vec<usize>],
    drafts: &mut Vec<Draft>,
) -> Result<(), AllocError> {
    push_reserving(alloc, forms, sides, false, drafts)?;
    push_reserving(alloc, forms, sides, true, drafts)
}

/// A draft that reserves strings. If `are_guarded`, they are tried too, and may not be followed by what continues a word.
fn push_reserving(
    alloc: Global,
    forms: &Forms,
    sides: &[Vec<usize>],
    are_guarded: bool,
    drafts: &mut Vec<Draft>,
) -> Result<(), AllocError> {
    let mut draft = Draft::new(alloc, Change::Reserved, false);
    let mut guarded = Met::new(alloc, forms.count())?;
    for item in forms.items {
        if let Some(word) = word_item(forms, item) {
            let keys = keys_beside(alloc, forms, sides, word.name)?;
            reserve(alloc, forms, &word, &keys, &mut draft)?;
            if are_guarded {
                guard_all(forms, &word, &keys, &mut guarded, &mut draft)?;
            }
        }
    }
    push_draft(drafts, draft)
}

/// A word item as it is written.
#[derive(Clone, Copy)]
struct WordItem<'s> {
    name: &'s [char],
    reserved: &'s [Characters],
    span: Span,
}

/// The item, if it is a word item.
fn word_item<'s>(forms: &Forms<'s>, item: &'s Item) -> Option<WordItem<'s>> {
    match item {
        Item::Word {
            name,
            name_place,
            reserved,
            ..
        } => {
            let span = forms.item_at(*name_place)?;
            Some(WordItem {
                name: name.as_slice(),
                reserved: reserved.as_slice(),
                span,
            })
        }
        Item::Class { .. }
        | Item::Rule { .. }
        | Item::Operators { .. }
        | Item::Table { .. }
        | Item::Start { .. } => None,
    }
}

/// The strings that look like words and stand on another side than words of this item.
fn keys_beside(
    alloc: Global,
    forms: &Forms,
    sides: &[Vec<usize>],
    name: &[char],
) -> Result<Vec<usize>, AllocError> {
    let mut keys = Met::new(alloc, forms.count())?;
    for (number, side) in sides.iter().enumerate() {
        if has_word(forms, side, name) {
            meet_keys(forms, sides, number, &mut keys)?;
        }
    }
    Ok(keys.into_forms())
}

/// Whether one of these forms is a word of this item.
fn has_word(forms: &Forms, side: &[usize], name: &[char]) -> bool {
    for form in side {
        if let Some(other) = forms.characters(*form, Kind::Word)
            && other == name
        {
            return true;
        }
    }
    false
}

/// Meets the strings that look like words, on all sides but the one with this number.
fn meet_keys(
    forms: &Forms,
    sides: &[Vec<usize>],
    number: usize,
    keys: &mut Met,
) -> Result<(), AllocError> {
    for (other, side) in sides.iter().enumerate() {
        if other != number {
            for form in side {
                if is_key(forms, *form) {
                    keys.meet(*form)?;
                }
            }
        }
    }
    Ok(())
}

/// Whether a form is a string whose first character is usual in words.
fn is_key(forms: &Forms, form: usize) -> bool {
    match forms.characters(form, Kind::String) {
        Some([c, ..]) => c.is_ascii_alphanumeric() || *c == '_' || *c > '\u{7f}',
        Some([]) | None => false,
    }
}

/// Adds the keys that a word item doesn't reserve yet to its reserved texts.
fn reserve(
    alloc: Global,
    forms: &Forms,
    word: &WordItem,
    keys: &[usize],
    draft: &mut Draft,
) -> Result<(), AllocError> {
    let added = unreserved(alloc, forms, word, keys)?;
    if added.is_empty() {
        return Ok(());
    }
    let words = if word.reserved.is_empty() {
        " reserved"
    } else {
        ""
    };
    draft.put_in(word.span.after.saturating_sub(1), words);
    for text in &added {
        draft.write(" ");
        draft.write_literal(text);
    }
    Ok(())
}

/// The texts of the keys that an item doesn't reserve yet, each once.
fn unreserved<'s>(
    alloc: Global,
    forms: &Forms<'s>,
    word: &WordItem,
    keys: &[usize],
) -> Result<Vec<&'s [char]>, AllocError> {
    let mut added = Vec::new(alloc);
    for key in keys {
        if let Some(text) = forms.characters(*key, Kind::String)
            && !is_reserved(word.reserved, text)
            && !added.contains(&text)
        {
            added.push(text)?;
        }
    }
    Ok(added)
}

fn is_reserved(reserved: &[Characters], text: &[char]) -> bool {
    for other in reserved {
        if other.as_slice() == text {
            return true;
        }
    }
    false
}

/// Makes each key tried and not followed by what continues words of the item. Each key is changed once.
fn guard_all(
    forms: &Forms,
    word: &WordItem,
    keys: &[usize],
    guarded: &mut Met,
    draft: &mut Draft,
) -> Result<(), AllocError> {
    let Some(rest) = rest_class(forms, word.span) else {
        return Ok(());
    };
    for key in keys {
        if !guarded.has(*key) {
            guarded.meet(*key)?;
            guard_key(forms, rest, *key, draft);
        }
    }
    Ok(())
}

/// Makes a key tried and not followed by the class with this span.
fn guard_key(forms: &Forms, rest: Span, key: usize, draft: &mut Draft) {
    let lexeme = lexeme_of(forms, key);
    let Some(guard) = lexeme.guard else {
        guard_string(forms, key, Class::Kept(rest), draft);
        return;
    };
    if !lexeme.is_tried {
        draft.wrap(forms.span(lexeme.whole), "try(", ")");
    }
    draft.replace(forms.span(guard));
    draft.write_around("notFollowedBy(", rest);
}

/// The class of the characters that continue words of an item.
fn rest_class(forms: &Forms, item: Span) -> Option<Span> {
    let mut begun = None;
    let mut number: usize = 0;
    let mut can_begin = false;
    for lexeme in forms.lexemes {
        if lexeme.place >= item.first && lexeme.place < item.after {
            if let Some(first) = begun
                && is_end(lexeme)
            {
                let after = lexeme.place;
                return Some(trimmed(forms.text, Span { first, after }));
            }
            if begun.is_none() && number >= 4 && can_begin && lexeme.token.is_word("rest") {
                begun = Some(lexeme.place.saturating_add(4));
            }
            can_begin = !is_open(lexeme);
            number = number.saturating_add(1);
        }
    }
    None
}

/// Whether a class ends before this token.
fn is_end(lexeme: &Lexeme) -> bool {
    lexeme.token.is_word("reserved") || lexeme.token.is_mark(Mark::Semicolon)
}

/// Whether a class continues after this token.
fn is_open(lexeme: &Lexeme) -> bool {
    lexeme.token.is_word("not")
        || lexeme.token.is_mark(Mark::Bar)
        || lexeme.token.is_mark(Mark::Open)
}
