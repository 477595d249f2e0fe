//! Forms that have to be there, put before forms that may be left out, and separators that end each value.

use crate::rounds::push_filling;
use pg_explain_drafts::{Change, Draft, Forms, Kind, push_draft};
use pg_file_items::Span;
use std::alloc::{AllocError, Global};

/// Drafts for an option or a repetition that meets what follows it in the same `seq`.
pub(crate) fn push_swaps(
    alloc: Global,
    forms: &Forms,
    form: usize,
    drafts: &mut Vec<Draft>,
) -> Result<(), AllocError> {
    let Some(next) = forms.next_part(form) else {
        return Ok(());
    };
    match (forms.kind(form), forms.parts(form)) {
        (Some(Kind::Option | Kind::Many), [value]) if forms.is_alike(*value, next) => {
            push_swap(alloc, forms, form, next, drafts)
        }
        (Some(Kind::Choice), [value, empty])
            if forms.is_alike(*value, next) && is_empty(forms, *empty) => {
            push_swap(alloc, forms, form, next, drafts)
        }
        (Some(Kind::SepBy | Kind::SepBy1), [value, separator])
            if is_optional(forms, next, *separator) => {
            push_end_by(alloc, forms, form, *value, next, drafts)
        }
        (_, _) => Ok(()),
    }
}

/// Whether a form is `seq()`.
fn is_empty(forms: &Forms, form: usize) -> bool {
    forms.is(form, Kind::Seq) && forms.parts(form).is_empty()
}

/// Whether a form is an option of a form that is spelled like the other.
fn is_optional(forms: &Forms, form: usize, other: usize) -> bool {
    match forms.parts(form) {
        [only] => forms.is(form, Kind::Option) && forms.is_alike(*only, other),
        _ => false,
    }
}

/// A draft that swaps two forms.
fn push_swap(
    alloc: Global,
    forms: &Forms,
    form: usize,
    next: usize,
    drafts: &mut Vec<Draft>,
) -> Result<(), AllocError> {
    let mut draft = Draft::new(alloc, Change::NeededFirst, false);
    draft.replace(forms.span(form));
    draft.keep(forms.span(next));
    draft.replace(forms.span(next));
    draft.keep(forms.span(form));
    push_draft(drafts, draft)
}

/// A draft in which the separator ends each value. Before, it could also come after the last one.
fn push_end_by(
    alloc: Global,
    forms: &Forms,
    form: usize,
    value: usize,
    next: usize,
    drafts: &mut Vec<Draft>,
) -> Result<(), AllocError> {
    let mut draft = Draft::new(alloc, Change::EndBy, true);
    draft.replace(both(forms, form, next));
    draft.write("endBy(");
    draft.keep(Span {
        first: forms.span(value).first,
        after: forms.span(form).after,
    });
    push_draft(drafts, draft)
}

/// The span from a form to the next one, or of their `seq` if it has no other part.
fn both(forms: &Forms, form: usize, next: usize) -> Span {
    match forms.parent(form) {
        Some(parent) if forms.is(parent, Kind::Seq) && forms.parts(parent).len() == 2 => {
            forms.span(parent)
        }
        Some(_) | None => Span {
            first: forms.span(form).first,
            after: forms.span(next).after,
        },
    }
}

/// Drafts that leave out an alternative `eof` of these choices, one draft for each.
pub(crate) fn push_eof_out(
    alloc: Global,
    forms: &Forms,
    choices: &[usize],
    drafts: &mut Vec<Draft>,
) -> Result<(), AllocError> {
    for form in choices {
        if forms.is(*form, Kind::Choice) && has_end(forms, *form) {
            push_filling(alloc, forms, *form, Change::EmptyOut, drafts)?;
        }
    }
    Ok(())
}

/// Whether each part of a form that can be empty is `eof`.
fn has_end(forms: &Forms, form: usize) -> bool {
    for part in forms.parts(form) {
        if forms.is_nullable(*part) && !forms.is(*part, Kind::EndOfText) {
            return false;
        }
    }
    true
}
