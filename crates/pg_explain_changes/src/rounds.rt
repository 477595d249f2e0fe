//! Rounds that can be empty.
//!
//! `many(option(v))` and `many(many(v))` say twice that there may be nothing. A round of several parts that can all be empty becomes one of the parts.
//! Otherwise, a part that lets the round be empty is changed.

use pg_explain_drafts::{
    Change, Draft, Forms, Kind, consuming, fill, leading, push_draft, write_filled, write_filling,
};
use std::alloc::{AllocError, Global};

/// Drafts for a repetition or a chain with a round that can be empty.
pub(crate) fn push_rounds(
    alloc: Global,
    forms: &Forms,
    form: usize,
    drafts: &mut Vec<Draft>,
) -> Result<(), AllocError> {
    let parts = forms.parts(form);
    if let [round] = parts {
        push_direct(alloc, forms, form, *round, drafts)?;
        push_one_of(alloc, forms, form, *round, drafts)?;
    }
    push_fillings(alloc, forms, parts, drafts)
}

/// Repeats the part of an inner repetition or option directly.
fn push_direct(
    alloc: Global,
    forms: &Forms,
    form: usize,
    round: usize,
    drafts: &mut Vec<Draft>,
) -> Result<(), AllocError> {
    let kinds = [Kind::Option, Kind::Many];
    match forms.parts(round) {
        [inner] if forms.is_among(round, &kinds) => {
            let place = place_of(forms, form, round);
            let mut draft = Draft::new(alloc, Change::NoInnerOption, false);
            write_kept(forms, place, *inner, &mut draft);
            push_draft(drafts, draft)
        }
        _ => Ok(()),
    }
}

/// Writes a round that is a form of the file.
fn write_kept(forms: &Forms, place: Place, round: usize, draft: &mut Draft) {
    draft.replace(forms.span(place.form));
    draft.write(place.before);
    draft.keep(forms.span(round));
    draft.write(place.after);
}

/// Makes a round one of its parts, each of which then consumes.
fn push_one_of(
    alloc: Global,
    forms: &Forms,
    form: usize,
    round: usize,
    drafts: &mut Vec<Draft>,
) -> Result<(), AllocError> {
    let parts = forms.parts(round);
    if !forms.is(round, Kind::Seq) || parts.len() < 2 || !are_filled(forms, parts) {
        return Ok(());
    }
    let place = place_of(forms, form, round);
    let mut draft = Draft::new(alloc, Change::OneOf, false);
    write_one_of(forms, place, parts, &mut draft);
    push_draft(drafts, draft)
}

/// Whether each of these has a replacement that consumes.
fn are_filled(forms: &Forms, parts: &[usize]) -> bool {
    for part in parts {
        if fill(forms, *part).is_none() {
            return false;
        }
    }
    true
}

/// Writes a round that is one of these two or more parts, each made to consume.
fn write_one_of(forms: &Forms, place: Place, parts: &[usize], draft: &mut Draft) {
    let mut is_first = true;
    draft.replace(forms.span(place.form));
    draft.write(place.before);
    draft.write("choice(");
    for part in parts {
        if let Some(filled) = fill(forms, *part) {
            draft.write_comma(is_first);
            write_filled(forms, filled, draft);
            is_first = false;
        }
    }
    draft.write(")");
    draft.write(place.after);
}

/// The form that a new round replaces in a repetition that may have no rounds, and the words around it.
#[derive(Clone, Copy)]
struct Place {
    form: usize,
    before: &'static str,
    after: &'static str,
}

/// The place of a new round in a repetition.
fn place_of(forms: &Forms, form: usize, round: usize) -> Place {
    if forms.is(form, Kind::Many) {
        Place {
            form: round,
            before: "",
            after: "",
        }
    } else {
        Place {
            form,
            before: "many(",
            after: ")",
        }
    }
}

/// Makes one of the forms consume that let these parts be empty: choices first, from the outside in.
fn push_fillings(
    alloc: Global,
    forms: &Forms,
    parts: &[usize],
    drafts: &mut Vec<Draft>,
) -> Result<(), AllocError> {
    let met = leading(alloc, forms, parts)?;
    for form in &met {
        if forms.is(*form, Kind::Choice) {
            push_filling(alloc, forms, *form, Change::EmptyOut, drafts)?;
        }
    }
    for form in &met {
        if let Some(change) = change_of(forms, *form) {
            push_filling(alloc, forms, *form, change, drafts)?;
        }
    }
    Ok(())
}

/// The change by which an option or a repetition is made to consume.
fn change_of(forms: &Forms, form: usize) -> Option<Change> {
    if forms.is(form, Kind::Option) {
        return Some(Change::NoInnerOption);
    }
    if forms.is_among(form, &[Kind::Many, Kind::SepBy, Kind::EndBy]) {
        return Some(Change::Many1);
    }
    None
}

/// Makes a form consume, if it can be empty.
pub(crate) fn push_filling(
    alloc: Global,
    forms: &Forms,
    form: usize,
    change: Change,
    drafts: &mut Vec<Draft>,
) -> Result<(), AllocError> {
    if !forms.is_nullable(form) {
        return Ok(());
    }
    let Some(filling) = consuming(forms, form, true) else {
        return Ok(());
    };
    let mut draft = Draft::new(alloc, change, false);
    draft.replace(forms.span(form));
    write_filling(forms, filling, &mut draft);
    push_draft(drafts, draft)
}
