//! The trials for a finding: drafts of several kinds, each with its guide and its way.

use crate::asks::{Ask, Shows};
use crate::candidates::asks_of;
use crate::guides::characters_of;
use crate::met::character_of_kind;
use pg_explain_samples::{
    Basis, Draft, Field, Fronts, Plan, Search, Step, Target, Task, make_draft, way_to,
};
use pg_grammar_form::NodeId;
use pg_predict::ViolationKind;
use pg_table::Table;
use std::alloc::{AllocError, Global};

/// Drafts of one kind.
#[derive(Drop)]
pub(crate) struct Trial {
    target: Target,
    pub(crate) shows: Shows,
    guide: Vec<char>,
    way: Vec<Step>,
}

/// The trials for a finding, and the costs that their guides need.
#[derive(Drop)]
pub(crate) struct Trials {
    pub(crate) fronts: Fronts,
    pub(crate) list: Vec<Trial>,
}

/// The trials for a finding at a node. Fails where memory runs out.
pub(crate) fn trials_of(
    alloc: Global,
    basis: &Basis<'_>,
    table: &Table,
    node: NodeId,
    kind: &ViolationKind<usize>,
) -> Result<Trials, AllocError> {
    let mut fronts = Fronts::new(alloc);
    fronts.ask(alloc, basis, &[' '])?;
    let character = character_of_kind(basis, kind);
    if let Some(c) = character {
        fronts.ask(alloc, basis, &[c])?;
    }
    let asks = asks_of(alloc, basis, table, node, kind, character)?;
    let mut list = Vec::new(alloc);
    for ask in &asks {
        if let Some(trial) = trial_of(alloc, basis, table, node, ask, &mut fronts)? {
            list.push(trial)?;
        }
    }
    Ok(Trials { fronts, list })
}

/// The trial for a wish, with its guide and a way to the node; `None` if there is no way.
fn trial_of(
    alloc: Global,
    basis: &Basis<'_>,
    table: &Table,
    node: NodeId,
    ask: &Ask,
    fronts: &mut Fronts,
) -> Result<Option<Trial>, AllocError> {
    let field = Field::of(&*basis, &*fronts, &*table);
    let guide = characters_of(alloc, field, ask.guide)?;
    fronts.ask(alloc, basis, &guide)?;
    let way = way_of(alloc, &*basis, &*fronts, ask, &guide, node)?;
    Ok(match way {
        Some(way) => Some(Trial {
            target: ask.target,
            shows: ask.shows,
            guide,
            way,
        }),
        None => None,
    })
}

/// A way to the node. If the wish has a guide for what follows, something that follows can begin with it.
fn way_of<'g>(
    alloc: Global,
    basis: &'g Basis<'g>,
    fronts: &'g Fronts,
    ask: &Ask,
    guide: &[char],
    node: NodeId,
) -> Result<Option<Vec<Step>>, AllocError> {
    let follow = match guide.first().copied() {
        Some(c) if ask.follow => fronts.of(c),
        Some(_) | None => None,
    };
    if ask.follow && follow.is_none() {
        return Ok(None);
    }
    let search = Search {
        basis,
        follow,
        cut: !matches!(ask.shows, Shows::Loss),
    };
    way_to(alloc, search, node)
}

/// A draft for a trial: plain, with spaces or varied, depending on the round.
pub(crate) fn drafted<'g>(
    alloc: Global,
    field: Field<'g>,
    trial: &'g Trial,
    round: u64,
) -> Result<Draft<'g>, AllocError> {
    let plan = Plan {
        way: &trial.way,
        target: trial.target,
        guide: &trial.guide,
        spaced: round % 2 == 1,
        seed: if round < 2 { 0 } else { round },
    };
    let end = Task::Step(trial.way.len());
    make_draft(alloc, field, plan, Task::Step(0), end)
}
