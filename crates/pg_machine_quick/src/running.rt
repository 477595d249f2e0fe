//! The state of a run over arrays.
//!
//! Each method makes one kind of turn as `specs/Tape.antt` says, or gives up. It gives up where a number would be too great, so that no bound has to be kept.

ghost use Rattle.std.specs.Prelude.{◌≡◌, ◌+◌, ◌∷◌, false, Some, length, take, IfOk, IfSome};
ghost use Rattle.pg_machine_quick.specs.Running.{shown, Does};
ghost use Rattle.pg_machine_quick.specs.Tape.{tape, tape_goes, tape_back, tape_picked, tape_returned, tape_released, tape_committed, tape_again, tape_stopped, before};
ghost use Rattle.pg_machine_quick.specs.declared.frame.Frame.TheVariants.{Returns, Encloses, Holds, Marks};

use crate::frame::{Before, Frame};
use crate::step::Step;
use pg_machine_plan::Arm;
use pg_tree_placed::PlacedForest;
use std::alloc::AllocError;

/// The state of a run. It is seen as a tape (`specs/Running.antt`).
#[derive(Drop)]
pub struct Running<'a> {
    /// The place in the code.
    pub pc: usize,
    /// The place in the text, in characters.
    pub place: usize,
    /// What waits, the last one at the end.
    pub frames: Vec<Frame>,
    /// All trees, over the text of the run.
    pub trees: PlacedForest<'a>,
    /// The nodes entered.
    pub nodes: usize,
    /// Whether something was consumed since the last frame that notes it.
    pub taken: bool,
}

impl<'a> Running<'a> {
    /// Goes on there.
    pub(crate) fn jump(&mut self, target: usize) -> Step
        ensures { Does (tape_goes (record (shown self.old) { pc = target })) result (shown self.new) }
    {
        self.pc = target;
        Step::GoesOn
    }

    /// Goes on after this instruction, where a node is entered.
    pub(crate) fn enter(&mut self) -> Step
        ensures { Does (tape_goes (record (shown self.old) { pc = self.old.pc + 1; nodes = self.old.nodes + 1 })) result (shown self.new) }
    {
        let Some(pc) = self.pc.checked_add(1) else {
            return Step::GivesUp;
        };
        let Some(nodes) = self.nodes.checked_add(1) else {
            return Step::GivesUp;
        };
        self.pc = pc;
        self.nodes = nodes;
        Step::GoesOn
    }

    /// Goes on at the arm.
    pub(crate) fn pick(&mut self, arm: Arm) -> Step
        ensures { Does (tape_picked (shown self.old) (Some arm)) result (shown self.new) }
    {
        let Some(nodes) = self.nodes.checked_add(arm.nodes) else {
            return Step::GivesUp;
        };
        self.pc = arm.target;
        self.nodes = nodes;
        Step::GoesOn
    }

    /// Goes on where the last call was made.
    pub(crate) fn come_back(&mut self) -> Step
        ensures { Does (tape_returned (shown self.old) (shown self.old).stack) result (shown self.new) }
    {
        match self.frames.pop() {
            Some(Frame::Returns(target)) => {
                self.pc = target as usize;
                Step::GoesOn
            }
            Some(Frame::Encloses(_, _) | Frame::Holds(_) | Frame::Operates(_) | Frame::Marks(_, _))
            | None => Step::GivesUp,
        }
    }

    /// Makes a call to this place.
    pub(crate) fn call(&mut self, target: usize) -> Result<Step, AllocError>
        ensures { IfOk result (λ step. Does (tape_goes (tape target self.old.place (Returns (self.old.pc + 1) ∷ (shown self.old).stack) self.old.trees (self.old.nodes + 1) self.old.taken)) step (shown self.new)) }
    {
        let step = self.enter();
        let Some(next) = noted(self.pc) else {
            return Ok(Step::GivesUp);
        };
        self.frames.push(Frame::Returns(next))?;
        self.pc = target;
        Ok(step)
    }

    /// Begins a form around a part.
    pub(crate) fn open(&mut self, counts: bool) -> Result<Step, AllocError>
        ensures { IfOk result (λ step. Does (tape_goes (tape (self.old.pc + 1) self.old.place (Encloses counts (before (length self.old.trees) self.old.place self.old.taken) ∷ (shown self.old).stack) self.old.trees (self.old.nodes + 1) false)) step (shown self.new)) }
    {
        let step = self.enter();
        let Some(before) = self.before() else {
            return Ok(Step::GivesUp);
        };
        self.frames.push(Frame::Encloses(counts, before))?;
        self.taken = false;
        Ok(step)
    }

    /// Begins a chain or an expression.
    pub(crate) fn hold(&mut self) -> Result<Step, AllocError>
        ensures { IfOk result (λ step. Does (tape_goes (tape (self.old.pc + 1) self.old.place (Holds (length self.old.trees) ∷ (shown self.old).stack) self.old.trees (self.old.nodes + 1) self.old.taken)) step (shown self.new)) }
    {
        let step = self.enter();
        let Some(count) = noted(self.trees.len()) else {
            return Ok(Step::GivesUp);
        };
        self.frames.push(Frame::Holds(count))?;
        Ok(step)
    }

    /// Sets a mark.
    pub(crate) fn mark(&mut self, target: usize) -> Result<Step, AllocError>
        ensures { IfOk result (λ step. Does (tape_goes (tape (self.old.pc + 1) self.old.place (Marks target (before (length self.old.trees) self.old.place self.old.taken) ∷ (shown self.old).stack) self.old.trees self.old.nodes false)) step (shown self.new)) }
    {
        let Some(pc) = self.pc.checked_add(1) else {
            return Ok(Step::GivesUp);
        };
        let (Some(target), Some(before)) = (noted(target), self.before()) else {
            return Ok(Step::GivesUp);
        };
        self.frames.push(Frame::Marks(target, before))?;
        self.pc = pc;
        self.taken = false;
        Ok(Step::GoesOn)
    }

    /// How it is now. None where a number is too great for a frame.
    pub(crate) fn before(&self) -> Option<Before>
        ensures { IfSome result (λ now. now ≡ before (length self.now.trees) self.now.place self.now.taken) }
    {
        let trees = noted(self.trees.len())?;
        let place = noted(self.place)?;
        Some(Before {
            trees,
            place,
            taken: self.taken,
        })
    }

    /// Ends a chain.
    pub(crate) fn release(&mut self) -> Step
        ensures { Does (tape_released (shown self.old) (shown self.old).stack) result (shown self.new) }
    {
        match self.frames.pop() {
            Some(Frame::Holds(_)) => {
                let Some(pc) = self.pc.checked_add(1) else {
                    return Step::GivesUp;
                };
                self.pc = pc;
                Step::GoesOn
            }
            Some(
                Frame::Encloses(_, _) | Frame::Returns(_) | Frame::Operates(_) | Frame::Marks(_, _),
            )
            | None => Step::GivesUp,
        }
    }

    /// Takes the last mark away and goes on there.
    pub(crate) fn commit(&mut self, target: usize) -> Step
        ensures { Does (tape_committed target (shown self.old) (shown self.old).stack) result (shown self.new) }
    {
        match self.frames.pop() {
            Some(Frame::Marks(_, before)) => {
                self.pc = target;
                self.taken = before.taken || self.taken;
                Step::GoesOn
            }
            Some(Frame::Encloses(_, _) | Frame::Returns(_) | Frame::Holds(_) | Frame::Operates(_))
            | None => Step::GivesUp,
        }
    }

    /// The same, where something was consumed since the mark.
    pub(crate) fn again(&mut self, target: usize) -> Step
        ensures { Does (tape_again target (shown self.old) self.old.taken) result (shown self.new) }
    {
        if self.taken {
            self.commit(target)
        } else {
            Step::GivesUp
        }
    }

    /// Fails after so many nodes: goes back to the last mark after which nothing was consumed. `consumed` says whether something was.
    #[inline(never)]
    pub(crate) fn back(&mut self, consumed: bool, nodes: usize) -> Step
        ensures { Does (tape_back consumed nodes self.old.trees (shown self.old).stack) result (shown self.new) }
    {
        let mut consumed = consumed;
        while let Some(frame) = self.frames.pop() {
            match frame {
                Frame::Returns(_) | Frame::Holds(_) | Frame::Operates(_) => {}
                Frame::Encloses(counts, before) => {
                    consumed = before.taken || (counts && consumed);
                }
                Frame::Marks(target, before) => {
                    if !consumed {
                        return self.back_to(target, before, nodes);
                    }
                }
            }
        }
        Step::GivesUp
    }

    /// Goes on at a mark, after so many nodes.
    fn back_to(&mut self, target: u32, before: Before, nodes: usize) -> Step
        ensures { Does (tape_goes (tape target before.place (shown self.old).stack (take before.trees self.old.trees) nodes before.taken)) result (shown self.new) }
    {
        let trees = before.trees as usize;
        if trees > self.trees.len() {
            return Step::GivesUp;
        }
        self.trees.cut(trees);
        self.pc = target as usize;
        self.place = before.place as usize;
        self.nodes = nodes;
        self.taken = before.taken;
        Step::GoesOn
    }

    /// At the end of the text, with nothing waiting: the end counts as a node.
    pub(crate) fn stop(&mut self, at_end: bool) -> Step
        ensures { Does (tape_stopped (shown self.old) at_end (shown self.old).stack) result (shown self.new) }
    {
        if !at_end || !self.frames.is_empty() {
            return Step::GivesUp;
        }
        let Some(nodes) = self.nodes.checked_add(1) else {
            return Step::GivesUp;
        };
        self.nodes = nodes;
        Step::Stops
    }
}

/// A number as frames have it. None where it is too great for one.
pub(crate) fn noted(number: usize) -> Option<u32>
    ensures { IfSome result (λ same. same ≡ number) }
{
    match u32::try_from(number) {
        Ok(number) => Some(number),
        Err(_) => None,
    }
}
