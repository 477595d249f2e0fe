//! The changes that may cure a finding at a form.

use crate::blanks::push_blanks;
use crate::chains::push_chains;
use crate::once::push_once;
use crate::order::push_orders;
use crate::reserving::push_reserved;
use crate::rounds::push_rounds;
use crate::runs::push_word;
use crate::swaps::{push_eof_out, push_swaps};
use crate::trying::push_tries;
use pg_explain_drafts::{Draft, Forms, Kind, following, leading};
use std::alloc::{AllocError, Global};

/// The most alternatives of a choice that are all changed together.
pub(crate) const ALTERNATIVES: usize = 32;

/// What is wrong at a form. Alternatives are counted from 1.
#[derive(Clone, Copy)]
pub enum Trouble {
    /// A rule leads back to itself before anything is consumed.
    LeftRecursion,
    /// A round of a repetition or a chain can be empty.
    EmptyRound,
    /// An alternative can be empty and isn't the last, or the part of an option or a repetition can be empty.
    EmptyAlternative(usize),
    /// Two alternatives can begin alike.
    AlternativesMeet(usize, usize),
    /// An alternative, or the part of an option, can begin like what follows.
    AlternativeMeetsFollow(usize),
    /// A round can begin like what follows.
    RoundMeetsFollow,
}

/// The changes that may cure what is wrong at a form, the best first (ours). Fails where memory runs out.
pub fn drafts(
    alloc: Global,
    forms: &Forms,
    form: usize,
    trouble: Trouble,
) -> Result<Vec<Draft>, AllocError> {
    let mut drafts = Vec::new(alloc);
    push_drafts(alloc, forms, form, trouble, &mut drafts)?;
    Ok(drafts)
}

/// Adds them to the list.
fn push_drafts(
    alloc: Global,
    forms: &Forms,
    form: usize,
    trouble: Trouble,
    drafts: &mut Vec<Draft>,
) -> Result<(), AllocError> {
    match trouble {
        Trouble::LeftRecursion => push_chains(alloc, forms, form, drafts),
        Trouble::EmptyRound => push_rounds(alloc, forms, form, drafts),
        Trouble::EmptyAlternative(k) => push_orders(alloc, forms, form, k, drafts),
        Trouble::AlternativesMeet(j, k) => push_choices(alloc, forms, form, j, k, drafts),
        Trouble::AlternativeMeetsFollow(k) => {
            push_follows(alloc, forms, form, alternative(forms, form, k), drafts)
        }
        Trouble::RoundMeetsFollow => push_repetition(alloc, forms, form, drafts),
    }
}

/// The alternative of a choice with this number, counting from 1, or the part of an option.
fn alternative<'f>(forms: &'f Forms, form: usize, number: usize) -> &'f [usize] {
    let parts = forms.parts(form);
    let place = if forms.is(form, Kind::Choice) {
        number.saturating_sub(1)
    } else {
        0
    };
    match parts.get(place..place.saturating_add(1)) {
        Some(alternative) => alternative,
        None => &[],
    }
}

/// Changes for two alternatives that meet.
fn push_choices(
    alloc: Global,
    forms: &Forms,
    form: usize,
    one: usize,
    other: usize,
    drafts: &mut Vec<Draft>,
) -> Result<(), AllocError> {
    let fronts = [
        alternative(forms, form, one),
        alternative(forms, form, other),
    ];
    let both = sides_of(alloc, forms, &fronts)?;
    push_tries(alloc, forms, &both, drafts)?;
    let all = all_sides(alloc, forms, forms.parts(form))?;
    push_by_sides(alloc, forms, form, &both, &all, drafts)
}

/// Further changes for two alternatives that meet. `both` has the forms that each of the two can begin with, and `all` has those of every alternative.
fn push_by_sides(
    alloc: Global,
    forms: &Forms,
    form: usize,
    both: &[Vec<usize>],
    all: &[Vec<usize>],
    drafts: &mut Vec<Draft>,
) -> Result<(), AllocError> {
    push_tries(alloc, forms, all, drafts)?;
    push_once(alloc, forms, form, false, drafts)?;
    push_reserved(alloc, forms, both, drafts)?;
    push_reserved(alloc, forms, all, drafts)?;
    push_once(alloc, forms, form, true, drafts)
}

/// For each of these lists of forms, the forms that it can begin with.
fn sides_of(
    alloc: Global,
    forms: &Forms,
    fronts: &[&[usize]],
) -> Result<Vec<Vec<usize>>, AllocError> {
    let mut sides = Vec::new(alloc);
    for front in fronts {
        sides.push(leading(alloc, forms, front)?)?;
    }
    Ok(sides)
}

/// For each of these alternatives, the forms that it can begin with; empty if there are too many alternatives.
fn all_sides(alloc: Global, forms: &Forms, parts: &[usize]) -> Result<Vec<Vec<usize>>, AllocError> {
    let mut sides = Vec::new(alloc);
    if parts.len() <= ALTERNATIVES {
        for part in parts {
            sides.push(leading(alloc, forms, &[*part])?)?;
        }
    }
    Ok(sides)
}

/// Changes for a form whose parts `inside` meet what follows it.
fn push_follows(
    alloc: Global,
    forms: &Forms,
    form: usize,
    inside: &[usize],
    drafts: &mut Vec<Draft>,
) -> Result<(), AllocError> {
    let next = following(alloc, forms, form)?;
    let sides = sides_of(alloc, forms, &[inside, next.as_slice()])?;
    push_by_follow(alloc, forms, form, &next, &sides, drafts)
}

/// Changes for a form that meets what follows it. The sides have the forms that both can begin with.
fn push_by_follow(
    alloc: Global,
    forms: &Forms,
    form: usize,
    next: &[usize],
    sides: &[Vec<usize>],
    drafts: &mut Vec<Draft>,
) -> Result<(), AllocError> {
    push_tries(alloc, forms, sides, drafts)?;
    push_swaps(alloc, forms, form, drafts)?;
    push_reserved(alloc, forms, sides, drafts)?;
    push_eof_out(alloc, forms, &[form], drafts)?;
    push_eof_out(alloc, forms, next, drafts)
}

/// Changes for a repetition whose rounds meet what follows.
fn push_repetition(
    alloc: Global,
    forms: &Forms,
    form: usize,
    drafts: &mut Vec<Draft>,
) -> Result<(), AllocError> {
    push_blanks(alloc, forms, form, drafts)?;
    push_word(alloc, forms, form, drafts)?;
    push_follows(alloc, forms, form, forms.parts(form), drafts)
}
