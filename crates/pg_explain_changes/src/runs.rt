//! Runs of characters, which words read as a whole.
//!
//! `text(many1(satisfy(c)))` is such a run, and so is `text(seq(satisfy(h), many(satisfy(c))))`.

use pg_explain_drafts::{Change, Draft, Forms, Kind, push_draft, slice_of};
use pg_file_items::{Item, Span};
use std::alloc::{AllocError, Global};

/// A draft that makes a word of the run that a repetition belongs to.
pub(crate) fn push_word(
    alloc: Global,
    forms: &Forms,
    form: usize,
    drafts: &mut Vec<Draft>,
) -> Result<(), AllocError> {
    match run_around(forms, form) {
        Some(run) => push_run(alloc, forms, run, drafts),
        None => Ok(()),
    }
}

/// A run of characters.
#[derive(Clone, Copy)]
struct Run {
    /// The `text` form.
    form: usize,
    /// The class of its first character.
    head: Span,
    /// The class of the others.
    rest: Span,
}

/// The run that a repetition belongs to.
fn run_around(forms: &Forms, form: usize) -> Option<Run> {
    let [round] = forms.parts(form) else {
        return None;
    };
    let rest = class_in(forms, *round)?;
    let parent = forms.parent(form)?;
    if forms.is(form, Kind::Many1) && forms.is(parent, Kind::Text) {
        return Some(Run {
            form: parent,
            head: rest,
            rest,
        });
    }
    let text = forms.parent(parent)?;
    let head = head_before(forms, parent, form)?;
    if forms.is(text, Kind::Text) {
        Some(Run {
            form: text,
            head,
            rest,
        })
    } else {
        None
    }
}

/// The class of the `satisfy` before a `many`, in a sequence of these two.
fn head_before(forms: &Forms, seq: usize, many: usize) -> Option<Span> {
    if !forms.is(seq, Kind::Seq) || !forms.is(many, Kind::Many) {
        return None;
    }
    match forms.parts(seq) {
        [head, last] if *last == many => class_in(forms, *head),
        _ => None,
    }
}

/// The class of a `satisfy`, as it is written in the parentheses.
fn class_in(forms: &Forms, form: usize) -> Option<Span> {
    if !forms.is(form, Kind::Satisfy) {
        return None;
    }
    let span = forms.span(form);
    let mut first = span.first.saturating_add(1);
    for c in forms.spelling(form) {
        if *c == '(' {
            break;
        }
        first = first.saturating_add(1);
    }
    let after = span.after.saturating_sub(1);
    Some(trimmed(forms.text, Span { first, after }))
}

/// The span without the blanks at its ends.
pub(crate) fn trimmed(text: &[char], span: Span) -> Span {
    let mut first = span.first;
    let mut after = span.after;
    let inside = slice_of(text, span);
    for c in inside {
        if !is_blank(*c) {
            break;
        }
        first = first.saturating_add(1);
    }
    for c in inside.iter().rev() {
        if !is_blank(*c) {
            break;
        }
        after = after.saturating_sub(1);
    }
    Span { first, after }
}

fn is_blank(c: char) -> bool {
    c == ' ' || c == '\n' || c == '\t' || c == '\r'
}

/// Inserts a word item before the rule that a run stands in, and replaces the run by a word.
fn push_run(
    alloc: Global,
    forms: &Forms,
    run: Run,
    drafts: &mut Vec<Draft>,
) -> Result<(), AllocError> {
    let Some(rule) = forms.rule_around(run.form) else {
        return Ok(());
    };
    let name = word_name(alloc, forms.items, rule.name)?;
    let mut draft = Draft::new(alloc, Change::Word, false);
    write_run(forms, run, rule.place, &name, &mut draft);
    push_draft(drafts, draft)
}

/// Inserts a word item with this name at a place, and replaces the run by a word of that item.
fn write_run(forms: &Forms, run: Run, place: usize, name: &[char], draft: &mut Draft) {
    draft.put_in(place, "word ");
    draft.write_characters(name);
    draft.write(" head ");
    draft.keep(run.head);
    draft.write(" rest ");
    draft.keep(run.rest);
    draft.write(";\n");
    draft.replace(forms.span(run.form));
    draft.write("word(");
    draft.write_characters(name);
    draft.write(")");
}

/// A name that no word item has: a rule's name with as many letters added as it takes.
fn word_name(alloc: Global, items: &[Item], rule: &[char]) -> Result<Vec<char>, AllocError> {
    let mut name = Vec::from_slice(alloc, rule)?;
    for _ in items {
        if !is_word_item(items, &name) {
            break;
        }
        name.push('W')?;
    }
    Ok(name)
}

/// Whether a word item has this name.
fn is_word_item(items: &[Item], wanted: &[char]) -> bool {
    for item in items {
        match item {
            Item::Word { name, .. } => {
                if name.as_slice() == wanted {
                    return true;
                }
            }
            Item::Class { .. }
            | Item::Rule { .. }
            | Item::Operators { .. }
            | Item::Table { .. }
            | Item::Start { .. } => {}
        }
    }
    false
}
