//! Replacements for forms that can be empty: forms that consume.

use crate::draft::Draft;
use crate::forms::Forms;
use crate::kinds::Kind;
use pg_file_items::Span;

/// The most forms around one that are looked into.
const STEPS: usize = 8;

/// A replacement for a form that can be empty. It always consumes.
#[derive(Clone, Copy)]
pub enum Filling {
    /// These words, and then these characters of the file: the same form with another word, or the part of an option.
    Kept(&'static str, Span),
    /// At least one value, each with a separator after it.
    Ended(usize, usize),
    /// A choice without the alternatives that consume nothing: those that are `seq()`, and also `eof` if the flag is set.
    Alternatives(usize, bool),
}

/// A replacement that consumes for a repetition, an option or a choice, if there is one. It leaves out alternatives that are `seq()`, and `eof` too if
/// `is_loose`.
pub fn consuming(forms: &Forms, form: usize, is_loose: bool) -> Option<Filling> {
    match (forms.kind(form), forms.parts(form)) {
        (Some(Kind::Many), [_]) => Some(renamed(forms, form, "many1", 4)),
        (Some(Kind::SepBy), [_, _]) => Some(renamed(forms, form, "sepBy1", 5)),
        (Some(Kind::Option), [part]) => Some(Filling::Kept("", forms.span(*part))),
        (Some(Kind::EndBy), [value, separator]) => Some(Filling::Ended(*value, *separator)),
        (Some(Kind::Choice), parts) if consuming_count(forms, parts, is_loose) > 0 => {
            Some(Filling::Alternatives(form, is_loose))
        }
        (_, _) => None,
    }
}

/// The form with another word instead of its first `length` characters.
fn renamed(forms: &Forms, form: usize, word: &'static str, length: usize) -> Filling {
    let Span { first, after } = forms.span(form);
    let first = first.saturating_add(length);
    Filling::Kept(word, Span { first, after })
}

/// How many of these alternatives consume, if all that are kept do; else 0.
fn consuming_count(forms: &Forms, parts: &[usize], is_loose: bool) -> usize {
    let mut count: usize = 0;
    for part in parts {
        if !takes_nothing(forms, *part, is_loose) {
            if forms.is_nullable(*part) {
                return 0;
            }
            count = count.saturating_add(1);
        }
    }
    count
}

/// Whether a form is `seq()`, or, if `is_loose`, `eof`.
fn takes_nothing(forms: &Forms, form: usize, is_loose: bool) -> bool {
    match forms.kind(form) {
        Some(Kind::Seq) => forms.parts(form).is_empty(),
        Some(Kind::EndOfText) => is_loose,
        Some(_) | None => false,
    }
}

/// Writes the replacement.
pub fn write_filling(forms: &Forms, filling: Filling, draft: &mut Draft) {
    match filling {
        Filling::Kept(words, span) => {
            draft.write(words);
            draft.keep(span);
        }
        Filling::Ended(value, separator) => {
            draft.write("many1(seq(");
            draft.keep(forms.span(value));
            draft.write_around(", skip(", forms.span(separator));
            draft.write("))");
        }
        Filling::Alternatives(choice, is_loose) => {
            write_alternatives(forms, forms.parts(choice), is_loose, draft);
        }
    }
}

/// Writes the alternatives that are kept.
fn write_alternatives(forms: &Forms, parts: &[usize], is_loose: bool, draft: &mut Draft) {
    let count = consuming_count(forms, parts, is_loose);
    let mut is_first = true;
    draft.open_group("choice(", count);
    for part in parts {
        if !takes_nothing(forms, *part, is_loose) {
            draft.write_comma(is_first);
            draft.keep(forms.span(*part));
            is_first = false;
        }
    }
    draft.close_group(count);
}

/// A replacement for a form that can be empty. It matches the same texts except the empty one, and makes the same trees of them.
#[derive(Clone, Copy)]
pub struct Filled {
    /// The form, or the rule body that it stands for.
    outer: usize,
    /// The form inside the forms around it.
    inner: usize,
    filling: Filling,
}

/// A replacement that consumes for a form that can be empty, if there is one. It looks through rules and forms of one part.
pub fn fill(forms: &Forms, form: usize) -> Option<Filled> {
    if !forms.is_nullable(form) {
        return None;
    }
    let mut outer = form;
    let mut inner = form;
    for _ in 0..STEPS {
        if let Some(body) = forms.body(inner) {
            outer = body;
            inner = body;
        } else if let Some(part) = only_part(forms, inner) {
            inner = part;
        } else {
            break;
        }
    }
    let filling = consuming(forms, inner, false)?;
    Some(Filled {
        outer,
        inner,
        filling,
    })
}

/// The part of a form that has no other, if the form makes no tree where the part makes none.
fn only_part(forms: &Forms, form: usize) -> Option<usize> {
    let kinds = [Kind::Skip, Kind::Label, Kind::Seq, Kind::Try];
    match forms.parts(form) {
        [only] if forms.is_among(form, &kinds) => Some(*only),
        _ => None,
    }
}

/// Writes a replacement with the forms around it.
pub fn write_filled(forms: &Forms, filled: Filled, draft: &mut Draft) {
    let outer = forms.span(filled.outer);
    let inner = forms.span(filled.inner);
    draft.keep(Span {
        first: outer.first,
        after: inner.first,
    });
    write_filling(forms, filled.filling, draft);
    draft.keep(Span {
        first: inner.after,
        after: outer.after,
    });
}
