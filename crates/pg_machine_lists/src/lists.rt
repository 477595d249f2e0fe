//! The lists of a run, and how they are cut and changed.

ghost use Rattle.std.specs.Prelude.{◌≡◌, [], length, slice_set, IfOk, OnOk};
ghost use Rattle.pg_message_tape.specs.TapeErrors.{tape_error, tape_error_after, messages_after};
ghost use Rattle.pg_machine_lists.specs.RunTrees.{no_run_trees};

use crate::run_forest::RunForest;
use pg_grammar_value::TrailItem;
use pg_message_tape::{KeptError, MessageTape, TapeError};
use std::alloc::{AllocError, Global};

/// The trees, the items of the trail and the messages of a run.
#[derive(Drop)]
pub struct Lists<'a> {
    pub forest: RunForest,
    pub trail: Vec<TrailItem>,
    pub messages: MessageTape<'a>,
}

impl<'a> Lists<'a> {
    /// Empty lists. They allocate no memory.
    pub fn new(alloc: Global) -> Lists<'a>
        ensures forest { result.forest ≡ no_run_trees }
        ensures trail { result.trail.items ≡ [] }
        ensures messages { result.messages ≡ [] }
    {
        Lists {
            forest: RunForest::new(alloc),
            trail: Vec::new(alloc),
            messages: MessageTape::new(alloc),
        }
    }

    /// The error without messages at a place, in characters.
    #[inline(always)]
    pub fn no_messages_at(&self, place: usize) -> TapeError
        ensures { result ≡ tape_error place (length self.now.messages) }
    {
        TapeError {
            place,
            from: self.messages.len(),
        }
    }

    /// Replaces the item at an index of the trail, if there is one.
    #[inline(always)]
    pub fn note(&mut self, slot: usize, item: TrailItem)
        ensures forest { self.new.forest ≡ self.old.forest }
        ensures trail { self.new.trail.items ≡ slice_set self.old.trail.items slot item }
        ensures messages { self.new.messages ≡ self.old.messages }
    {
        if slot < self.trail.len() {
            self.trail[slot] = item;
        }
    }

    /// The error of an answer after a kept one: its own if the answer consumed, else both merged, as Parsec merges them.
    #[inline(always)]
    pub fn error_after(
        &mut self,
        kept: KeptError,
        consumed: bool,
        error: TapeError,
    ) -> Result<TapeError, AllocError>
        ensures error { IfOk result (λ after. after ≡ tape_error_after consumed kept error self.old.messages) }
        ensures forest { OnOk result (self.new.forest ≡ self.old.forest) }
        ensures trail { OnOk result (self.new.trail ≡ self.old.trail) }
        ensures messages { OnOk result (self.new.messages ≡ messages_after consumed kept error self.old.messages) }
    {
        if consumed {
            return Ok(error);
        }
        let merged = self.messages.merge(kept, error)?;
        Ok(merged)
    }
}
