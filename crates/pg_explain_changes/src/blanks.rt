//! Blanks that are read in two places.
//!
//! Where two runs of blanks can stand side by side, a blank could belong to either. So one of the runs goes: blanks are read after each token, and those at
//! the very beginning once.

use pg_explain_drafts::{Change, Draft, Forms, Kind, Met, push_draft};
use pg_file_items::Span;
use std::alloc::{AllocError, Global};

/// The most uses of a run that are tried one by one.
const USES: usize = 12;

/// The most forms and rules that the search for the end of an alternative goes through.
const DEPTH: usize = 32;

/// The places that use a run of characters, and whether its trees are left out.
#[derive(Drop)]
struct Run {
    uses: Vec<usize>,
    is_skipped: bool,
}

/// Drafts for a repetition that meets what follows it. They leave out one of the two runs.
pub(crate) fn push_blanks(
    alloc: Global,
    forms: &Forms,
    form: usize,
    drafts: &mut Vec<Draft>,
) -> Result<(), AllocError> {
    let run = run_of(alloc, forms, form)?;
    for taken in &run.uses {
        push_twice(alloc, forms, *taken, drafts)?;
        push_with_others(alloc, forms, *taken, drafts)?;
    }
    if run.is_skipped {
        push_skipped(alloc, forms, &run.uses, drafts)?;
    }
    Ok(())
}

/// Drafts for a run whose trees are left out: it is left out at the front of sequences, or in a single place.
fn push_skipped(
    alloc: Global,
    forms: &Forms,
    uses: &[usize],
    drafts: &mut Vec<Draft>,
) -> Result<(), AllocError> {
    push_leading(alloc, forms, uses, true, drafts)?;
    let tried = match uses.get(..USES) {
        Some(tried) => tried,
        None => uses,
    };
    for taken in tried {
        // The next form may read blanks too, and keep them in a tree.
        push_single(alloc, forms, *taken, true, drafts)?;
    }
    push_leading(alloc, forms, uses, false, drafts)
}

/// A draft without a part.
fn push_single(
    alloc: Global,
    forms: &Forms,
    taken: usize,
    tree_changes: bool,
    drafts: &mut Vec<Draft>,
) -> Result<(), AllocError> {
    let mut draft = Draft::new(alloc, Change::BlanksOnce, tree_changes);
    take_away(forms, taken, &mut draft);
    push_draft(drafts, draft)
}

/// The uses of a repetition as a part of other forms. Rules and forms around it count as the repetition.
fn run_of(alloc: Global, forms: &Forms, form: usize) -> Result<Run, AllocError> {
    let mut uses = Vec::new(alloc);
    let mut is_skipped = false;
    let mut met = Met::new(alloc, forms.count())?;
    met.meet(form)?;
    for number in 0..forms.count() {
        let Some(form) = met.get(number) else {
            break;
        };
        match forms.parent(form) {
            Some(parent) if is_around(forms, parent) => {
                is_skipped = is_skipped || forms.is(parent, Kind::Skip);
                met.meet(parent)?;
            }
            Some(_) => uses.push(form)?,
            None => met.meet_uses(forms, form)?,
        }
    }
    Ok(Run { uses, is_skipped })
}

/// Whether a form has one part and reads it once.
fn is_around(forms: &Forms, form: usize) -> bool {
    let kinds = [
        Kind::Skip,
        Kind::Text,
        Kind::Label,
        Kind::Build,
        Kind::Try,
        Kind::Seq,
    ];
    forms.parts(form).len() == 1 && forms.is_among(form, &kinds)
}

/// If the same run comes next, that one is left out. If it comes after one part that may be missing, it is read with that part instead.
fn push_twice(
    alloc: Global,
    forms: &Forms,
    taken: usize,
    drafts: &mut Vec<Draft>,
) -> Result<(), AllocError> {
    let Some(next) = forms.next_part(taken) else {
        return Ok(());
    };
    if forms.is_alike(taken, next) {
        return push_single(alloc, forms, next, false, drafts);
    }
    match (forms.next_part(next), forms.parts(next)) {
        (Some(after), [inner])
            if forms.is_among(next, &[Kind::Option, Kind::Many]) && forms.is_alike(taken, after) =>
            { push_inside(alloc, forms, *inner, after, drafts) }
        (_, _) => Ok(()),
    }
}

/// Reads what comes after an option or a repetition along with its part instead.
fn push_inside(
    alloc: Global,
    forms: &Forms,
    inner: usize,
    after: usize,
    drafts: &mut Vec<Draft>,
) -> Result<(), AllocError> {
    let span = forms.span(inner);
    let mut draft = Draft::new(alloc, Change::BlanksOnce, false);
    draft.put_in(span.first, "seq(");
    draft.put_in(span.after, ", ");
    draft.keep(forms.span(after));
    draft.write(")");
    take_away(forms, after, &mut draft);
    push_draft(drafts, draft)
}

/// A run of blanks that comes last in a `seq`, after a choice.
#[derive(Clone, Copy)]
struct Last {
    choice: usize,
    /// The run.
    taken: usize,
    /// The `seq`.
    around: usize,
}

/// A run comes last, after a choice in which some alternatives end with the same run. It is read with each of the other alternatives instead.
fn push_with_others(
    alloc: Global,
    forms: &Forms,
    taken: usize,
    drafts: &mut Vec<Draft>,
) -> Result<(), AllocError> {
    let Some(around) = forms.parent(taken) else {
        return Ok(());
    };
    if !forms.is(around, Kind::Seq) {
        return Ok(());
    }
    match forms.parts(around) {
        [choice, last] if *last == taken && forms.is(*choice, Kind::Choice) => {
            let last = Last {
                choice: *choice,
                taken,
                around,
            };
            push_alternatives(alloc, forms, last, true, drafts)
        }
        [.., choice, last] if *last == taken && forms.is(*choice, Kind::Choice) => {
            let last = Last {
                choice: *choice,
                taken,
                around,
            };
            push_alternatives(alloc, forms, last, false, drafts)
        }
        _ => Ok(()),
    }
}

/// The draft for that. If the `seq` has no other part, the choice stands alone.
fn push_alternatives(
    alloc: Global,
    forms: &Forms,
    last: Last,
    is_alone: bool,
    drafts: &mut Vec<Draft>,
) -> Result<(), AllocError> {
    let mut draft = Draft::new(alloc, Change::BlanksOnce, false);
    let has_some = write_others(forms, last, &mut draft);
    if is_alone {
        let (whole, inner) = (forms.span(last.around), forms.span(last.choice));
        draft.replace(Span {
            first: whole.first,
            after: inner.first,
        });
        draft.replace(Span {
            first: inner.after,
            after: whole.after,
        });
    } else {
        take_away(forms, last.taken, &mut draft);
    }
    draft.whole()?;
    if has_some {
        push_draft(drafts, draft)?;
    }
    Ok(())
}

/// Makes each other alternative end with the run. Answers whether some ended with it before.
fn write_others(forms: &Forms, last: Last, draft: &mut Draft) -> bool {
    let mut has_some = false;
    for part in forms.parts(last.choice) {
        if ends_in(forms, *part, last) {
            has_some = true;
        } else {
            let span = forms.span(*part);
            draft.put_in(span.first, "seq(");
            draft.put_in(span.after, ", ");
            draft.keep(forms.span(last.taken));
            draft.write(")");
        }
    }
    has_some
}

/// Whether a form ends with the run, or with the form in which the run comes last.
fn ends_in(forms: &Forms, form: usize, last: Last) -> bool {
    let mut end = form;
    for _ in 0..DEPTH {
        if end == last.around || forms.is_alike(end, last.taken) {
            return true;
        }
        match last_part(forms, end) {
            Some(part) => end = part,
            None => return false,
        }
    }
    false
}

/// The body of a rule, or the last part of a form that reads its parts one after another.
fn last_part(forms: &Forms, form: usize) -> Option<usize> {
    let kinds = [Kind::Seq, Kind::Try, Kind::Label, Kind::Build, Kind::Local];
    match (forms.body(form), forms.parts(form)) {
        (Some(body), _) => Some(body),
        (None, [.., part]) if forms.is_among(form, &kinds) => Some(*part),
        (None, _) => None,
    }
}

/// Removes a part from a form of several parts.
fn take_away(forms: &Forms, taken: usize, draft: &mut Draft) {
    let kinds = [Kind::Seq, Kind::Try, Kind::Local];
    match forms.parent(taken) {
        Some(parent) if forms.is_among(parent, &kinds) => {
            match with_comma(forms, forms.parts(parent), taken) {
                Some(span) => draft.replace(span),
                None => {}
            }
        }
        Some(_) | None => {}
    }
}

/// A part of several with the comma before it, or after it if it comes first.
fn with_comma(forms: &Forms, parts: &[usize], taken: usize) -> Option<Span> {
    let span = forms.span(taken);
    let mut first = None;
    for part in parts {
        if *part < taken {
            first = Some(forms.span(*part).after);
        } else if *part > taken {
            return Some(match first {
                Some(first) => Span {
                    first,
                    after: span.after,
                },
                None => Span {
                    first: span.first,
                    after: forms.span(*part).first,
                },
            });
        }
    }
    let first = first?;
    Some(Span {
        first,
        after: span.after,
    })
}

/// A draft that removes all uses that come first in their `seq`. If `is_moved`, one is put at the beginning of the start rule.
fn push_leading(
    alloc: Global,
    forms: &Forms,
    uses: &[usize],
    is_moved: bool,
    drafts: &mut Vec<Draft>,
) -> Result<(), AllocError> {
    let mut draft = Draft::new(alloc, Change::BlanksOnce, !is_moved);
    write_leading(forms, uses, is_moved, &mut draft);
    push_draft(drafts, draft)
}

/// Writes that draft.
fn write_leading(forms: &Forms, uses: &[usize], is_moved: bool, draft: &mut Draft) {
    let start = match forms.start() {
        Some(rule) => Some(rule.body),
        None => None,
    };
    let mut last = None;
    for taken in uses {
        if is_first(forms, *taken) && forms.parent(*taken) != start {
            take_away(forms, *taken, draft);
            last = Some(*taken);
        }
    }
    match (last, start) {
        (Some(taken), Some(body)) if is_moved => put_first(forms, taken, body, draft),
        (_, _) => {}
    }
}

/// Whether a form is the first part of a `seq`.
fn is_first(forms: &Forms, form: usize) -> bool {
    match forms.parent(form) {
        Some(parent) => forms.is(parent, Kind::Seq) && parent.saturating_add(1) == form,
        None => false,
    }
}

/// Inserts the run at the beginning of a rule's body.
fn put_first(forms: &Forms, taken: usize, body: usize, draft: &mut Draft) {
    let span = forms.span(body);
    match forms.parts(body) {
        [inner, ..] if forms.is(body, Kind::Seq) => {
            put_before(forms, taken, forms.span(*inner).first, "", draft);
        }
        _ => {
            draft.put_in(span.after, ")");
            put_before(forms, taken, span.first, "seq(", draft);
        }
    }
}

/// Inserts words, the run and a comma at a place.
fn put_before(forms: &Forms, taken: usize, place: usize, words: &'static str, draft: &mut Draft) {
    draft.put_in(place, words);
    draft.keep(forms.span(taken));
    draft.write(", ");
}
