//! What is known of places in a plan's code, where several turns are made at once.
//!
//! It is found once for a run, so that no turn looks at the instructions behind its own again. For a short text it isn't found: that would take longer than
//! the run.

ghost use Rattle.std.specs.Prelude.{◌≡◌, IfOk, IfSome};
ghost use Rattle.pg_machine_quick.specs.Landmarks.{AreLandmarks, IsLandmark};

use crate::passing::{RowEnd, prefixes_at, row_end_at};
use crate::tokens::{Token, Wrapped, token_at, wrapped_at};
use pg_machine_plan::{Instruction, Plan};
use std::alloc::{AllocError, Global};
use std::marker::Model;

/// What is known of a place in the code.
#[derive(Clone, Copy)]
pub enum Landmark {
    /// Nothing.
    Plain,
    /// The end of a row is there.
    EndsRow(RowEnd),
    /// So many prefix operators are read from there on, one row after another.
    BeginsPrefixes(usize),
    /// A form begins there, and behind its beginning is the code of a token.
    BeginsToken(Token),
    /// A form begins there, and behind its beginning is the code of one around a token.
    BeginsWrapped(Wrapped),
}

/// A plan with what is known of the places in its code; seen as the plan.
#[derive(Drop)]
pub struct MarkedPlan<'p> {
    plan: &'p Plan,
    landmarks: Vec<Landmark>,
}

impl<'p> Model for MarkedPlan<'p> {
    ghost use Rattle.pg_machine_plan.specs.Plans.{Plan as Laid};
    ghost use Rattle.pg_machine_quick.specs.Landmarks.{AreLandmarks};

    ghost Value = { Laid };

    ghost view = { λ m. m.plan.now };

    ghost invariant = { λ m. AreLandmarks m.plan.now m.landmarks.items };
}

impl<'p> MarkedPlan<'p> {
    /// The plan with its landmarks, or with none, if a text of so many characters is too short for them.
    pub(crate) fn of(
        alloc: Global,
        plan: &'p Plan,
        characters: usize,
    ) -> Result<MarkedPlan<'p>, AllocError>
        ensures { IfOk result (λ marked. marked ≡ plan.now) }
    {
        let landmarks = landmarks_of(alloc, plan, marked_places(plan, characters))?;
        Ok(MarkedPlan { plan, landmarks })
    }

    /// The plan.
    pub(crate) fn plan(&self) -> &Plan
        ensures { result.now ≡ self.now }
    {
        self.plan
    }

    /// The instructions.
    pub(crate) fn code(&self) -> &[Instruction]
        ensures { result.now ≡ self.now.code }
    {
        self.plan.code()
    }

    /// Where the run over a text begins.
    pub(crate) fn entry(&self) -> usize
        ensures { result ≡ self.now.entry }
    {
        self.plan.entry()
    }

    /// What is known of a place.
    #[inline(always)]
    pub(crate) fn landmark(&self, pc: usize) -> Option<&Landmark>
        ensures { IfSome result (λ landmark. IsLandmark self.now pc landmark.now) }
    {
        self.landmarks.get(pc)
    }
}

/// How many places of the code are worth looking at for a text of so many characters.
fn marked_places(plan: &Plan, characters: usize) -> usize {
    let count = plan.code().len();
    if characters / 2 < count { 0 } else { count }
}

/// What is known of each of the first so many places in a plan's code.
fn landmarks_of(alloc: Global, plan: &Plan, count: usize) -> Result<Vec<Landmark>, AllocError>
    ensures { IfOk result (λ landmarks. AreLandmarks plan.now landmarks.items) }
{
    let mut landmarks = Vec::with_capacity(alloc, count)?;
    for pc in 0..count {
        landmarks.push(landmark_at(plan, pc))?;
    }
    Ok(landmarks)
}

/// What is known of a place, by the instructions from there on.
fn landmark_at(plan: &Plan, pc: usize) -> Landmark
    ensures { IsLandmark plan.now pc result }
{
    match row_end_at(plan, pc) {
        Some(end) => Landmark::EndsRow(end),
        None => form_at(plan, pc),
    }
}

/// The same where no row ends.
fn form_at(plan: &Plan, pc: usize) -> Landmark
    ensures { IsLandmark plan.now pc result }
{
    match token_at(plan, pc) {
        Some(token) => Landmark::BeginsToken(token),
        None => match wrapped_at(plan, pc) {
            Some(wrapped) => Landmark::BeginsWrapped(wrapped),
            None => row_at(plan, pc),
        },
    }
}

/// The same where no form begins that is known.
fn row_at(plan: &Plan, pc: usize) -> Landmark
    ensures { IsLandmark plan.now pc result }
{
    let count = prefixes_at(plan, pc);
    if count == 0 {
        Landmark::Plain
    } else {
        Landmark::BeginsPrefixes(count)
    }
}
