//! Repetitions: counted rounds of a node.

ghost use Rattle.std.specs.Prelude.{◌≡◌, IfOk};
ghost use Rattle.pg_trail_replay.specs.Tasks.{told, many_turn, rounds_turn, is_still, is_unchanged, more_turn};
ghost use Rattle.pg_trail_replay.specs.View.{state_of};

use crate::looseness::is_text;
use crate::replay_fault::Mismatch;
use crate::replayer::Replayer;
use crate::task::{Halt, RoundsTask, ShortTask, Task};
use pg_grammar_form::NodeId;
use pg_grammar_value::TrailItem;
use std::alloc::AllocError;

impl Replayer<'_> {
    /// Takes the item that counts the rounds.
    pub(crate) fn begin_rounds(&mut self, part: NodeId) -> Result<Option<Halt>, AllocError>
        ensures { IfOk result (λ halt. told halt (state_of self.new) ≡ many_turn part self.old.rest.now (state_of self.old)) }
    {
        match self.rest.split_first() {
            Some((TrailItem::Rounds(left), rest)) => {
                let left = *left;
                self.take_item(rest);
                self.go_on(&[Task::Short(ShortTask::Rounds { part, left })])
            }
            Some((TrailItem::Alt(_) | TrailItem::Ops(_), _)) | None => Ok(Some(Halt::Stopped(
                Mismatch::ItemDiffers,
            ))),
        }
    }

    /// A round, and then the remaining ones.
    pub(crate) fn round(&mut self, part: NodeId, left: usize) -> Result<Option<Halt>, AllocError>
        ensures { IfOk result (λ halt. told halt (state_of self.new) ≡ rounds_turn part left (state_of self.old)) }
    {
        if left == 0 {
            return Ok(None);
        }
        let left = left - 1;
        let (place, trees, items) = (self.place, self.forest.len(), self.rest.len());
        let more = Task::Rounds(RoundsTask::MoreRounds {
            part,
            left,
            place,
            trees,
            items,
        });
        self.go_on(&[more, Task::Short(ShortTask::Node(part))])
    }

    /// The remaining rounds, after one that began at the place. If that round consumed nothing and gave no trees, they are skipped.
    pub(crate) fn more_rounds(
        &mut self,
        part: NodeId,
        left: usize,
        place: usize,
        trees: usize,
        items: usize,
    ) -> Result<Option<Halt>, AllocError>
        ensures { IfOk result (λ halt. told halt (state_of self.new) ≡ more_turn part left place trees items (state_of self.old)) }
    {
        if self.is_unchanged(place, trees, items) {
            return Ok(None);
        }
        self.ask_again(place, trees, items, left)?;
        self.round(part, left)
    }

    /// After a round that consumed nothing, each remaining one gives its trees again. Their memory is reserved at once, so that a count that is only
    /// claimed fills no memory before it is found to be too large.
    pub(crate) fn ask_again(
        &mut self,
        place: usize,
        trees: usize,
        items: usize,
        left: usize,
    ) -> Result<(), AllocError>
        ensures { state_of self.new ≡ state_of self.old }
    {
        if !self.is_still(place, items) {
            return Ok(());
        }
        let before = trees.min(self.forest.len());
        self.forest.reserve(before, left)
    }

    /// Whether nothing was consumed since then, and no tree was given that can't be left out.
    pub(crate) fn is_unchanged(&self, place: usize, trees: usize, items: usize) -> bool
        ensures { result ≡ is_unchanged place trees items (state_of self.now) }
    {
        self.is_still(place, items) && (trees == self.forest.len() || is_text(&self.loose))
    }

    /// Whether nothing was consumed since then.
    pub(crate) fn is_still(&self, place: usize, items: usize) -> bool
        ensures { result ≡ is_still place items (state_of self.now) }
    {
        place == self.place && items == self.rest.len()
    }
}
