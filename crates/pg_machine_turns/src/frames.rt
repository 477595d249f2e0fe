//! The frames of a run, each kind on a list of its own.
//!
//! A list of kinds has their order, the topmost last. So a frame takes no more memory than its kind needs, a
//! rule's one byte: texts that nest a million deep rely on that.

ghost use Rattle.std.specs.Prelude.{◌≡◌, ◌∷◌, [], ◌==◌, ◌<◌, ◌-◌, ◌^◌, suc, true, length, slice_get, Some, IfSome, IfNone, OnOk};
ghost use Rattle.pg_machine_turns.specs.Tape.{on_rounds};
ghost use Rattle.pg_machine_turns.specs.ViewFrames.{frame_of, lying_of, newest, older};
ghost use Rattle.pg_machine_turns.specs.declared.frame.Frame.TheVariants as frame;
ghost use Rattle.pg_machine_turns.specs.declared.frame.RoundsFrame.{RoundsFrame};

use crate::frame::{Frame, FrameRef, Marks, RoundsFrame};
use crate::frame_lists::{FrameKind, FrameLists};
use std::alloc::{AllocError, Global};
use std::marker::Model;

/// Frames. Contracts see them as their list, the topmost first. A kind with no frame left counts as a rule's. A turn pops the last
/// kind, and then the last frame of it.
#[derive(Drop)]
pub struct Frames<'a> {
    pub(crate) kinds: Vec<FrameKind>,
    pub(crate) lists: FrameLists<'a>,
}

impl<'a> Model for Frames<'a> {
    ghost use Rattle.std.specs.Prelude.{List};
    ghost use Rattle.std.specs.Coded.{codes};
    ghost use Rattle.pg_tree.specs.Marks.{tree_code};
    ghost use Rattle.pg_machine_turns.specs.Tape.{OnFrame};
    ghost use Rattle.pg_machine_turns.specs.ViewFrames.{by_kind, in_order, last_first};

    ghost Value = { List OnFrame };

    ghost coded = { Prim.hlevel (codes, tree_code) };

    ghost view = { λ f. in_order (last_first (λ kind. kind) f.kinds.items) (by_kind f.lists) };
}

impl<'a> Frames<'a> {
    /// No frames. They allocate no memory.
    pub fn new(alloc: Global) -> Frames<'a>
        ensures { result ≡ [] }
    {
        Frames {
            kinds: Vec::new(alloc),
            lists: FrameLists::new(alloc),
        }
    }

    /// Whether there are none.
    #[inline(always)]
    pub fn is_empty(&self) -> bool
        ensures { result ≡ (length self.now == 0) }
    {
        self.kinds.is_empty()
    }

    /// Pushes a frame.
    #[inline(always)]
    pub(crate) fn push(&mut self, frame: Frame<'a>) -> Result<(), AllocError>
        ensures { OnOk result (self.new ≡ frame_of frame.entry ∷ self.old) }
    {
        self.kinds.reserve(1)?;
        let kind = self.lists.put(frame)?;
        self.kinds.push_reserved(kind);
        Ok(())
    }

    /// Whether the topmost kind is a repetition's; `renew_rounds` says whether there is a frame of it.
    #[inline(always)]
    pub(crate) fn ends_in_rounds(&self) -> bool {
        matches!(self.kinds.last(), Some(FrameKind::Rounds))
    }

    /// Updates the topmost frame in place, if it is a repetition's, for a round that begins here with these marks, and
    /// gives the old one.
    #[inline(always)]
    pub(crate) fn renew_rounds(&mut self, start: usize, marks: Marks) -> Option<RoundsFrame>
        requires { (rounds : RoundsFrame) → newest self.now ≡ frame_of (frame.Rounds rounds) → rounds.count < 2 ^ 64 - 1 }
        ensures before { IfSome result (λ before. self.old ≡ frame_of (frame.Rounds before) ∷ older self.old) }
        ensures after { IfSome result (λ before. self.new ≡
            on_rounds before.part (suc before.count) true start before.slot marks.forest marks.trail marks.operators before.messages
            ∷ older self.old) }
        ensures same { IfNone result (self.new ≡ self.old) }
    {
        if let Some(FrameKind::Rounds) = self.kinds.last() {
            if let Some(before) = self.lists.renew_rounds(start, marks) {
                return Some(before);
            }
        }
        None
    }

    /// A reference to the topmost frame, if there is any.
    pub fn top(&self) -> Option<FrameRef<'_, 'a>>
        ensures some { IfSome result (λ frame. slice_get self.now 0 ≡ Some (lying_of frame)) }
        ensures none { IfNone result (self.now ≡ []) }
    {
        match self.kinds.last() {
            Some(kind) => Some(self.lists.newest(*kind)),
            None => None,
        }
    }
}
