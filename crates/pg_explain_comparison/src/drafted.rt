//! Drafts of the texts wanted, each text once.

use crate::asks::{Ask, asks_of};
use pg_explain_samples::{
    Basis, Draft, Field, Fronts, Plan, Search, Step, Task, make_draft, trail_of, way_to,
};
use pg_grammar_value::Trail;
use pg_table::Table;
use std::alloc::{AllocError, Global};

/// How often each wish is drafted: first plain, then with spaces, then varied.
const ROUNDS: u64 = 7;
/// The most characters of a text that is kept.
const LONGEST: usize = 24;
/// The most tasks of all drafts, for each text wanted.
const TASKS: usize = 400;

/// A text with the trail of its draft.
#[derive(Drop)]
pub(crate) struct Drafted {
    pub(crate) text: Vec<char>,
    pub(crate) trail: Trail,
}

/// A wish, with a way from the start rule to its node.
#[derive(Drop)]
struct Aim {
    ask: Ask,
    way: Vec<Step>,
}

/// The texts that were drafted.
#[derive(Drop)]
struct Drafts {
    texts: Vec<Drafted>,
    /// How many texts are wanted in all.
    wanted: usize,
    /// How many more tasks may be done.
    tasks: usize,
}

/// At most `wanted` texts of a grammar with their trails, the shortest first.
pub(crate) fn drafted_of(
    alloc: Global,
    basis: &Basis<'_>,
    table: &Table,
    wanted: usize,
) -> Result<Vec<Drafted>, AllocError> {
    let mut fronts = Fronts::new(alloc);
    let aims = aims_of(alloc, basis, table, &mut fronts)?;
    let mut drafts = Drafts {
        texts: Vec::new(alloc),
        wanted,
        tasks: wanted.saturating_mul(TASKS),
    };
    for round in 0..ROUNDS {
        draft_all(
            alloc,
            Field::of(&*basis, &fronts, &*table),
            &aims,
            round,
            &mut drafts,
        )?;
    }
    Ok(drafts.texts)
}

/// The wishes whose nodes the start rule leads to. Works out the costs that their guides need.
fn aims_of(
    alloc: Global,
    basis: &Basis<'_>,
    table: &Table,
    fronts: &mut Fronts,
) -> Result<Vec<Aim>, AllocError> {
    let asks = asks_of(alloc, basis, table)?;
    fronts.ask(alloc, basis, &[' '])?;
    let mut aims = Vec::new(alloc);
    for ask in asks {
        fronts.ask(alloc, basis, &ask.guide)?;
        if let Some(way) = way_of(alloc, &*basis, &*fronts, &ask)? {
            aims.push(Aim { ask, way })?;
        }
    }
    Ok(aims)
}

/// A way to the wish's node. If its guide is for what follows, something that follows can begin with it.
fn way_of<'g>(
    alloc: Global,
    basis: &'g Basis<'g>,
    fronts: &'g Fronts,
    ask: &Ask,
) -> Result<Option<Vec<Step>>, AllocError> {
    let follow = match ask.guide.first() {
        Some(c) if ask.is_followed => fronts.of(*c),
        Some(_) | None => None,
    };
    if ask.is_followed && follow.is_none() {
        return Ok(None);
    }
    let search = Search {
        basis,
        follow,
        cut: false,
    };
    way_to(alloc, search, ask.node)
}

/// Drafts each wish once more.
fn draft_all(
    alloc: Global,
    field: Field<'_>,
    aims: &[Aim],
    round: u64,
    drafts: &mut Drafts,
) -> Result<(), AllocError> {
    for aim in aims {
        if drafts.texts.len() >= drafts.wanted || drafts.tasks == 0 {
            break;
        }
        let draft = draft_of(alloc, field, aim, round)?;
        note(alloc, field.table, &draft, drafts)?;
    }
    Ok(())
}

/// A draft for the wish: plain, with spaces or varied, depending on the round.
fn draft_of<'g>(
    alloc: Global,
    field: Field<'g>,
    aim: &'g Aim,
    round: u64,
) -> Result<Draft<'g>, AllocError> {
    let plan = Plan {
        way: &aim.way,
        target: aim.ask.target,
        guide: &aim.ask.guide,
        spaced: round % 2 == 1,
        seed: if round < 2 { 0 } else { round },
    };
    let end = Task::Step(aim.way.len());
    make_draft(alloc, field, plan, Task::Step(0), end)
}

/// Keeps a finished draft if its text is short and new.
fn note(
    alloc: Global,
    table: &Table,
    draft: &Draft<'_>,
    drafts: &mut Drafts,
) -> Result<(), AllocError> {
    drafts.tasks = drafts.tasks.saturating_sub(draft.done);
    if !draft.whole || draft.text.len() > LONGEST || is_among(&drafts.texts, &draft.text) {
        return Ok(());
    }
    let text = Vec::from_slice(alloc, &draft.text)?;
    let trail = trail_of(alloc, table, &draft.picks)?;
    insert(Drafted { text, trail }, &mut drafts.texts)
}

/// Inserts a text after those that are as short or shorter.
fn insert(drafted: Drafted, texts: &mut Vec<Drafted>) -> Result<(), AllocError> {
    let mut place: usize = 0;
    for other in texts.iter() {
        if other.text.len() <= drafted.text.len() {
            place = place.saturating_add(1);
        }
    }
    if place <= texts.len() {
        texts.insert(place, drafted)?;
    }
    Ok(())
}

/// Whether a text is among these.
fn is_among(texts: &[Drafted], text: &[char]) -> bool {
    for other in texts {
        if other.text.as_slice() == text {
            return true;
        }
    }
    false
}
