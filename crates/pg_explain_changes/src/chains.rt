//! Left recursions.
//!
//! `e = choice(seq(e, op, t), t)` becomes `chainl1(list, t, op)`. Anything else that comes after `e` in such alternatives is repeated.

use pg_explain_drafts::{Change, Draft, Forms, Kind, Level, WrittenRule, push_draft, take_out};
use std::alloc::{AllocError, Global};

/// Drafts for a left-recursive rule with this body. Other rules are tried too, since several may be recursive together.
pub(crate) fn push_chains(
    alloc: Global,
    forms: &Forms,
    body: usize,
    drafts: &mut Vec<Draft>,
) -> Result<(), AllocError> {
    for rule in &forms.rules {
        if rule.body == body {
            push_rule(alloc, forms, *rule, drafts)?;
        }
    }
    for rule in &forms.rules {
        if rule.body != body {
            push_rule(alloc, forms, *rule, drafts)?;
        }
    }
    Ok(())
}

/// The alternatives of a rule: those that begin with the rule itself, opened until this shows, and the others.
#[derive(Drop)]
struct Alternatives {
    again: Vec<Level>,
    others: Vec<usize>,
}

/// Drafts for a rule, if some of its alternatives begin with it and others don't.
fn push_rule(
    alloc: Global,
    forms: &Forms,
    rule: WrittenRule,
    drafts: &mut Vec<Draft>,
) -> Result<(), AllocError> {
    if !forms.is(rule.body, Kind::Choice) {
        return Ok(());
    }
    let all = parted(alloc, forms, rule)?;
    if all.again.is_empty() || all.others.is_empty() {
        return Ok(());
    }
    if are_chained(forms, rule, &all) {
        push_chain(alloc, forms, rule, &all, drafts)?;
    }
    push_repeated(alloc, forms, rule, &all, drafts)
}

/// The alternatives of a rule's body, sorted.
fn parted(alloc: Global, forms: &Forms, rule: WrittenRule) -> Result<Alternatives, AllocError> {
    let mut all = Alternatives {
        again: Vec::new(alloc),
        others: Vec::new(alloc),
    };
    for part in forms.parts(rule.body) {
        match Level::begun_with(alloc, forms, *part, rule.name, true)? {
            Some(level) => all.again.push(level)?,
            None => all.others.push(*part)?,
        }
    }
    Ok(all)
}

/// Whether each alternative that begins with the rule ends with an operand.
fn are_chained(forms: &Forms, rule: WrittenRule, all: &Alternatives) -> bool {
    for level in &all.again {
        match level.parts.as_slice() {
            [_, .., last] if is_operand(forms, rule, &all.others, *last) => {}
            _ => return false,
        }
    }
    true
}

/// Whether a form is the rule again, or the only other alternative.
fn is_operand(forms: &Forms, rule: WrittenRule, others: &[usize], form: usize) -> bool {
    match others {
        [only] if forms.is_alike(*only, form) => true,
        _ => forms.spelling(form) == rule.name,
    }
}

/// A draft with a chain as the rule's body.
fn push_chain(
    alloc: Global,
    forms: &Forms,
    rule: WrittenRule,
    all: &Alternatives,
    drafts: &mut Vec<Draft>,
) -> Result<(), AllocError> {
    let mut draft = Draft::new(alloc, Change::Chain, true);
    draft.replace(forms.span(rule.body));
    write_chain(forms, all, &mut draft);
    take_out_all(forms, rule, all, &mut draft);
    push_draft(drafts, draft)
}

/// Writes a chain of the other alternatives, with what stands between the operands as separators.
fn write_chain(forms: &Forms, all: &Alternatives, draft: &mut Draft) {
    draft.write("chainl1(");
    write_builder(forms, all, draft);
    draft.write(", ");
    draft.write_group(forms, "choice(", &all.others);
    draft.write(", ");
    write_rests(forms, all, true, draft);
    draft.write(")");
}

/// Writes the builder of the first `build` that was left out, with its symbol, if one was.
fn write_builder(forms: &Forms, all: &Alternatives, draft: &mut Draft) {
    match first_build(all) {
        Some(build) => {
            write_name(forms, build, draft);
            write_symbol(forms, build, draft);
        }
        None => draft.write("list"),
    }
}

/// The first `build` that was left out, if one was.
fn first_build(all: &Alternatives) -> Option<usize> {
    for level in &all.again {
        if let Some(build) = level.build {
            return Some(build);
        }
    }
    None
}

/// Writes the builder of a `build`.
fn write_name(forms: &Forms, build: usize, draft: &mut Draft) {
    match forms.characters(build, Kind::Build) {
        Some(name) => draft.write_characters(name),
        None => draft.write("list"),
    }
}

/// Writes the symbol of a `build` behind its builder, if it has one.
fn write_symbol(forms: &Forms, build: usize, draft: &mut Draft) {
    let symbol = forms.symbol(build);
    if !symbol.is_empty() {
        draft.write(", ");
        draft.write_literal(symbol);
    }
}

/// Writes a choice of what follows the rule in the alternatives that begin with it. If `are_chained`, the operands at their ends are left out.
fn write_rests(forms: &Forms, all: &Alternatives, are_chained: bool, draft: &mut Draft) {
    let mut is_first = true;
    draft.open_group("choice(", all.again.len());
    for level in &all.again {
        draft.write_comma(is_first);
        draft.write_group(forms, "seq(", rest_of(&level.parts, are_chained));
        is_first = false;
    }
    draft.close_group(all.again.len());
}

/// The forms after the first, without the last one if `is_chained`.
fn rest_of(parts: &[usize], is_chained: bool) -> &[usize] {
    match parts {
        [_, between @ .., _] if is_chained => between,
        [_, rest @ ..] => rest,
        [] => &[],
    }
}

/// Removes the rules that nothing uses any more.
fn take_out_all(forms: &Forms, rule: WrittenRule, all: &Alternatives, draft: &mut Draft) {
    for level in &all.again {
        take_out(forms, &level.opened, rule.body, draft);
    }
}

/// A draft with the other alternatives first, and then a repetition of what follows the rule.
fn push_repeated(
    alloc: Global,
    forms: &Forms,
    rule: WrittenRule,
    all: &Alternatives,
    drafts: &mut Vec<Draft>,
) -> Result<(), AllocError> {
    let mut tree_changes = false;
    for level in &all.again {
        tree_changes = tree_changes || level.tree_changes;
    }
    let mut draft = Draft::new(alloc, Change::Repeated, tree_changes);
    draft.replace(forms.span(rule.body));
    write_repetition(forms, all, &mut draft);
    take_out_all(forms, rule, all, &mut draft);
    push_draft(drafts, draft)
}

/// Writes a choice of the other alternatives, and then a repetition of what follows the rule in those that begin with it.
fn write_repetition(forms: &Forms, all: &Alternatives, draft: &mut Draft) {
    draft.write("seq(");
    draft.write_group(forms, "choice(", &all.others);
    draft.write(", many(");
    write_rests(forms, all, false, draft);
    draft.write("))");
}
