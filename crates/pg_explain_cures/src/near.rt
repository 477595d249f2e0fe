//! Whether a change stays near its finding: each rule that it touches is the finding's rule, uses it or is used by it, directly or through others.

use crate::items::is_unchanged;
use pg_explain_drafts::{Changed, Forms, Met, item_spans};
use pg_file_tokens::lex;
use std::alloc::{AllocError, Global};

/// Whether each rule that a change touches is the one that a form stands in, uses that one or is used by it.
pub(crate) fn is_near(
    alloc: Global,
    forms: &Forms,
    form: usize,
    changed: &Changed,
) -> Result<bool, AllocError> {
    let Some(rule) = forms.rule_around(form) else {
        return Ok(false);
    };
    for touched in &touched_rules(alloc, forms, changed)? {
        if !are_related(alloc, forms, rule.body, *touched)? {
            return Ok(false);
        }
    }
    Ok(true)
}

/// The bodies of the rules that a change touches.
fn touched_rules(
    alloc: Global,
    forms: &Forms,
    changed: &Changed,
) -> Result<Vec<usize>, AllocError> {
    let lexemes = lex(alloc, changed.text.as_slice())?;
    let mut bodies = Vec::new(alloc);
    for span in &item_spans(alloc, &lexemes)? {
        if !is_unchanged(changed, *span)
            && let Some(body) = body_at(forms, changed.origin(span.first))
        {
            bodies.push(body)?;
        }
    }
    Ok(bodies)
}

/// The body of the rule whose name stood at a place in the file.
fn body_at(forms: &Forms, place: Option<usize>) -> Option<usize> {
    let place = place?;
    for rule in &forms.rules {
        if rule.place == place {
            return Some(rule.body);
        }
    }
    None
}

/// Whether one of the rules with these bodies uses the other, directly or through others, or they are the same.
fn are_related(alloc: Global, forms: &Forms, one: usize, other: usize) -> Result<bool, AllocError> {
    Ok(uses(alloc, forms, one, other)? || uses(alloc, forms, other, one)?)
}

/// Whether the rule with this body uses the other rule, directly or through others, or is the same.
fn uses(alloc: Global, forms: &Forms, body: usize, used: usize) -> Result<bool, AllocError> {
    let mut met = Met::new(alloc, forms.count())?;
    met.meet(body)?;
    for number in 0..forms.count() {
        let Some(form) = met.get(number) else {
            break;
        };
        met.meet_all(forms.parts(form))?;
        if let Some(next) = forms.body(form) {
            met.meet(next)?;
        }
    }
    Ok(met.has(used))
}
