//! Strings that are tried as a whole.

use crate::strings::{lexeme_of, met_strings, next_characters};
use pg_explain_drafts::{Change, Draft, Forms, push_draft};
use pg_file_items::Span;
use std::alloc::{AllocError, Global};

/// Drafts with `try` around strings of several sides. Each side has all forms that it can begin with.
pub(crate) fn push_tries(
    alloc: Global,
    forms: &Forms,
    sides: &[Vec<usize>],
    drafts: &mut Vec<Draft>,
) -> Result<(), AllocError> {
    let strings = met_strings(alloc, forms, sides)?;
    push_tried(alloc, forms, &strings, drafts)?;
    push_guarded(alloc, forms, &strings, drafts)
}

/// A draft with `try` around each of these strings.
fn push_tried(
    alloc: Global,
    forms: &Forms,
    strings: &[usize],
    drafts: &mut Vec<Draft>,
) -> Result<(), AllocError> {
    let mut draft = Draft::new(alloc, Change::Try, false);
    for form in strings {
        try_string(forms, *form, &mut draft);
    }
    push_draft(drafts, draft)
}

/// Puts `try` around a string that has none, and around a `notFollowedBy` after it.
fn try_string(forms: &Forms, form: usize, draft: &mut Draft) {
    let lexeme = lexeme_of(forms, form);
    if lexeme.is_tried {
        return;
    }
    draft.wrap(forms.span(lexeme.whole), "try(", ")");
}

/// A draft that also says what may not follow a string that another one begins with. There is none if no string begins like that.
fn push_guarded(
    alloc: Global,
    forms: &Forms,
    strings: &[usize],
    drafts: &mut Vec<Draft>,
) -> Result<(), AllocError> {
    let mut draft = Draft::new(alloc, Change::NotBefore, false);
    let mut is_guarded = false;
    for form in strings {
        if guard_longer(alloc, forms, *form, strings, &mut draft)? {
            is_guarded = true;
        }
    }
    draft.whole()?;
    if is_guarded {
        push_draft(drafts, draft)?;
    }
    Ok(())
}

/// Makes a string tried and not followed by what continues longer ones. Answers whether there are longer ones, and the string had no such guard before.
fn guard_longer(
    alloc: Global,
    forms: &Forms,
    form: usize,
    strings: &[usize],
    draft: &mut Draft,
) -> Result<bool, AllocError> {
    let next = next_characters(alloc, forms, form, strings)?;
    let is_guarded = !next.is_empty() && lexeme_of(forms, form).guard.is_none();
    if is_guarded {
        guard_string(forms, form, Class::OneOf(next.as_slice()), draft);
    } else {
        try_string(forms, form, draft);
    }
    Ok(is_guarded)
}

/// A class of characters: one that is written in the file, or these characters.
#[derive(Clone, Copy)]
pub(crate) enum Class<'a> {
    Kept(Span),
    OneOf(&'a [char]),
}

/// Makes a string tried and not followed by a class.
pub(crate) fn guard_string(forms: &Forms, form: usize, class: Class, draft: &mut Draft) {
    let is_tried = lexeme_of(forms, form).is_tried;
    let span = forms.span(form);
    if !is_tried {
        draft.put_in(span.first, "try(");
    }
    draft.put_in(span.after, ", notFollowedBy(");
    match class {
        Class::Kept(class) => draft.keep(class),
        Class::OneOf(characters) => draft.write_literal(characters),
    }
    draft.write(if is_tried { ")" } else { "))" });
}
