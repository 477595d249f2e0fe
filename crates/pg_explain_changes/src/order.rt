//! Alternatives that can be empty and aren't the last.

use crate::rounds::push_filling;
use pg_explain_drafts::{Change, Draft, Forms, Kind, fill, push_draft, write_filled};
use std::alloc::{AllocError, Global};

/// Drafts for a choice in which the alternative with this number, counting from 1, can be empty and isn't the last.
pub(crate) fn push_orders(
    alloc: Global,
    forms: &Forms,
    form: usize,
    number: usize,
    drafts: &mut Vec<Draft>,
) -> Result<(), AllocError> {
    if forms.is(form, Kind::Choice) {
        push_moved(alloc, forms, form, number, false, drafts)?;
        push_moved(alloc, forms, form, number, true, drafts)?;
    }
    match forms.parts(form) {
        [_] if forms.is(form, Kind::Option) => {
            push_filling(alloc, forms, form, Change::NoInnerOption, drafts)
        }
        [value, _] => push_filling(alloc, forms, *value, Change::Many1, drafts),
        _ => Ok(()),
    }
}

/// A draft that puts an alternative last. If `are_filled`, the others are made to consume.
fn push_moved(
    alloc: Global,
    forms: &Forms,
    form: usize,
    number: usize,
    are_filled: bool,
    drafts: &mut Vec<Draft>,
) -> Result<(), AllocError> {
    let parts = forms.parts(form);
    let moved = number.saturating_sub(1);
    if moved >= parts.len() {
        return Ok(());
    }
    let mut draft = Draft::new(alloc, Change::EmptyLast, false);
    write_moved(forms, parts, moved, are_filled, &mut draft);
    push_draft(drafts, draft)
}

/// Writes the alternative with this number, counting from 0, last, and moves those after it one place forward.
fn write_moved(forms: &Forms, parts: &[usize], moved: usize, are_filled: bool, draft: &mut Draft) {
    for (number, part) in parts.iter().enumerate() {
        let next = number.saturating_add(1);
        let from = if number < moved {
            number
        } else if next < parts.len() {
            next
        } else {
            moved
        };
        if let Some(other) = parts.get(from) {
            put(forms, *part, *other, are_filled && from != moved, draft);
        }
    }
}

/// Writes an alternative in the place of another, unchanged or made to consume.
fn put(forms: &Forms, part: usize, other: usize, is_filled: bool, draft: &mut Draft) {
    let filled = if is_filled { fill(forms, other) } else { None };
    match filled {
        Some(filled) => {
            draft.replace(forms.span(part));
            write_filled(forms, filled, draft);
        }
        None if part != other => {
            draft.replace(forms.span(part));
            draft.keep(forms.span(other));
        }
        None => {}
    }
}
