//! What turns do with trees and characters.

ghost use Rattle.std.specs.Prelude.{◌≡◌, ◌≤◌, ◌+◌, ◌++◌, ◌∷◌, [], ◌||◌, true, false, Some, length, take, drop, IfOk};
ghost use Rattle.pg_language.specs.Derives.{leaf_of, made_by};
ghost use Rattle.pg_language.specs.Outcomes.{Outcome};
ghost use Rattle.pg_machine_quick.specs.Readings.{Reads};
ghost use Rattle.pg_machine_quick.specs.Running.{shown, Does};
ghost use Rattle.pg_table.specs.Tables.{Table};
ghost use Rattle.pg_machine_quick.specs.Tape.{tape, tape_goes, tape_back, tape_ends, tape_folded_by, tape_folds, tape_has_read, tape_has_spanned};
ghost use Rattle.pg_machine_quick.specs.Turns.{added, is_some_character, leaves_of};

use crate::frame::{Before, Frame};
use crate::reading::Reading;
use crate::running::Running;
use crate::step::Step;
use pg_grammar_form::{Around, ChainBuilder};
use pg_machine_plan::Keep;
use pg_text::Text;
use pg_tree_placed::PlacedForest;
use std::alloc::AllocError;

impl<'a> Running<'a> {
    /// A leaf has read so.
    #[inline(always)]
    pub(crate) fn react(
        &mut self,
        keep: Keep,
        text: &Text,
        reading: Reading,
    ) -> Result<Step, AllocError>
        ensures { IfOk result (λ step. (table : Table) (o : Outcome) → Reads text.now table self.old.place o reading → Does (tape_has_read keep (shown self.old) (Some o)) step (shown self.new)) }
    {
        match reading {
            Reading::Took(count) => self.take_next(keep, text, count),
            Reading::Nothing => Ok(self.enter()),
            Reading::Failed(consumed) => Ok(self.fail(consumed)),
        }
    }

    /// A leaf took so many of the next characters.
    fn take_next(&mut self, keep: Keep, text: &Text, count: usize) -> Result<Step, AllocError>
        ensures { IfOk result (λ step. Does (tape_goes (tape (self.old.pc + 1) (self.old.place + count) (shown self.old).stack (added keep self.old.trees (leaf_of (take count (drop self.old.place text.now)) ∷ [])) (self.old.nodes + 1) true)) step (shown self.new)) }
    {
        let characters = text.characters();
        if self.place > characters.len() || count > characters.len() - self.place {
            return Ok(Step::GivesUp);
        }
        self.take(keep, &characters[self.place..self.place + count])
    }

    /// A leaf took these characters.
    pub(crate) fn take(&mut self, keep: Keep, characters: &[char]) -> Result<Step, AllocError>
        ensures { IfOk result (λ step. Does (tape_goes (tape (self.old.pc + 1) (self.old.place + length characters.now) (shown self.old).stack (added keep self.old.trees (leaf_of characters.now ∷ [])) (self.old.nodes + 1) true)) step (shown self.new)) }
    {
        let Some(place) = self.place.checked_add(characters.len()) else {
            return Ok(Step::GivesUp);
        };
        if !push(&mut self.trees, keep, characters, self.place)? {
            return Ok(Step::GivesUp);
        }
        self.place = place;
        self.taken = true;
        Ok(self.enter())
    }

    /// A leaf failed. `consumed` says whether it had consumed something.
    pub(crate) fn fail(&mut self, consumed: bool) -> Step
        ensures { Does (tape_back (self.old.taken || consumed) (self.old.nodes + 1) self.old.trees (shown self.old).stack) result (shown self.new) }
    {
        match self.nodes.checked_add(1) {
            Some(nodes) => self.back(self.taken || consumed, nodes),
            None => Step::GivesUp,
        }
    }

    /// A span took these characters, one after another.
    pub(crate) fn span(&mut self, keep: Keep, characters: &[char]) -> Result<Step, AllocError>
        ensures { IfOk result (λ step. Does (tape_has_spanned keep (shown self.old) characters.now) step (shown self.new)) }
    {
        let Some(place) = self.place.checked_add(characters.len()) else {
            return Ok(Step::GivesUp);
        };
        let Some(more) = characters.len().checked_add(2) else {
            return Ok(Step::GivesUp);
        };
        let Some(nodes) = self.nodes.checked_add(more) else {
            return Ok(Step::GivesUp);
        };
        let Some(pc) = self.pc.checked_add(1) else {
            return Ok(Step::GivesUp);
        };
        if !push_each(&mut self.trees, keep, characters, self.place)? {
            return Ok(Step::GivesUp);
        }
        self.taken = self.taken || is_some_character(characters);
        self.place = place;
        self.nodes = nodes;
        self.pc = pc;
        Ok(Step::GoesOn)
    }

    /// A form around a part ends.
    pub(crate) fn close(
        &mut self,
        keep: Keep,
        around: &Around,
        text: &Text,
    ) -> Result<Step, AllocError>
        ensures { IfOk result (λ step. Does (tape_ends text.now keep around.now (shown self.old) (shown self.old).stack) step (shown self.new)) }
    {
        match self.frames.pop() {
            Some(Frame::Encloses(_, before)) => self.enclose(keep, around, text, before),
            Some(Frame::Returns(_) | Frame::Holds(_) | Frame::Operates(_) | Frame::Marks(_, _))
            | None => Ok(Step::GivesUp),
        }
    }

    /// A form ends, before which it was so.
    fn enclose(
        &mut self,
        keep: Keep,
        around: &Around,
        text: &Text,
        before: Before,
    ) -> Result<Step, AllocError>
        ensures { IfOk result (λ step. Does (tape_goes (tape (self.old.pc + 1) self.old.place (shown self.old).stack (added keep (take before.trees self.old.trees) (made_by around.now text.now before.place self.old.place (drop before.trees self.old.trees))) self.old.nodes (before.taken || self.old.taken))) step (shown self.new)) }
    {
        let Some(pc) = self.pc.checked_add(1) else {
            return Ok(Step::GivesUp);
        };
        if before.trees as usize > self.trees.len()
            || before.place as usize > self.place
            || self.place > text.len()
        {
            return Ok(Step::GivesUp);
        }
        if !make(&mut self.trees, keep, around, text, before, self.place)? {
            return Ok(Step::GivesUp);
        }
        self.pc = pc;
        self.taken = before.taken || self.taken;
        Ok(Step::GoesOn)
    }

    /// The trees of a chain become one.
    #[tactic(auto, using(crate::proofs::Held::fold_held))]
    pub(crate) fn fold(&mut self, keep: Keep, used: &ChainBuilder) -> Result<Step, AllocError>
        ensures { IfOk result (λ step. Does (tape_folds keep used.now (shown self.old) (shown self.old).stack) step (shown self.new)) }
    {
        match self.last() {
            Some(Frame::Holds(count)) => self.fold_after(keep, used, count as usize),
            Some(
                Frame::Returns(_) | Frame::Encloses(_, _) | Frame::Operates(_) | Frame::Marks(_, _),
            )
            | None => Ok(Step::GivesUp),
        }
    }

    /// The trees after so many become one.
    fn fold_after(
        &mut self,
        keep: Keep,
        used: &ChainBuilder,
        count: usize,
    ) -> Result<Step, AllocError>
        ensures { IfOk result (λ step. Does (tape_goes (tape (self.old.pc + 1) self.old.place (shown self.old).stack (tape_folded_by keep used.now count self.old.trees) self.old.nodes self.old.taken)) step (shown self.new)) }
    {
        let Some(pc) = self.pc.checked_add(1) else {
            return Ok(Step::GivesUp);
        };
        if count > self.trees.len() {
            return Ok(Step::GivesUp);
        }
        if !fold(&mut self.trees, keep, used, count)? {
            return Ok(Step::GivesUp);
        }
        self.pc = pc;
        Ok(Step::GoesOn)
    }
}

/// Puts a leaf of these characters, which stand in the text from this place on, at the end, where trees are kept. Says whether it did.
pub(crate) fn push(
    trees: &mut PlacedForest<'_>,
    keep: Keep,
    characters: &[char],
    from: usize,
) -> Result<bool, AllocError>
    ensures { IfOk result (λ done. done ≡ true → trees.new ≡ added keep trees.old (leaf_of characters.now ∷ [])) }
{
    match keep {
        Keep::Kept => trees.push_leaf(characters, from),
        Keep::Hidden => Ok(true),
    }
}

/// Puts a leaf of each of these characters, which stand in the text from this place on, at the end, where trees are kept. Says whether it did.
fn push_each(
    trees: &mut PlacedForest<'_>,
    keep: Keep,
    characters: &[char],
    from: usize,
) -> Result<bool, AllocError>
    ensures { IfOk result (λ done. done ≡ true → trees.new ≡ added keep trees.old (leaves_of characters.now)) }
{
    match keep {
        Keep::Kept => push_leaves(trees, characters, from),
        Keep::Hidden => Ok(true),
    }
}

/// Puts a leaf of each of these characters at the end. Says whether it did.
fn push_leaves(
    trees: &mut PlacedForest<'_>,
    characters: &[char],
    from: usize,
) -> Result<bool, AllocError>
    ensures { IfOk result (λ done. done ≡ true → trees.new ≡ trees.old ++ leaves_of characters.now) }
{
    let mut place = from;
    for c in characters {
        if !trees.push_leaf(&[*c], place)? {
            return Ok(false);
        }
        place = place.saturating_add(1);
    }
    Ok(true)
}

/// Whether there is a character.
fn is_some_character(characters: &[char]) -> bool
    ensures { result ≡ is_some_character characters.now }
{
    match characters {
        [] => false,
        [_, ..] => true,
    }
}

/// What a form makes of the trees since it began, where trees are kept; elsewhere they are dropped. Says whether it did.
#[inline(always)]
pub(crate) fn make(
    trees: &mut PlacedForest<'_>,
    keep: Keep,
    around: &Around,
    text: &Text,
    before: Before,
    place: usize,
) -> Result<bool, AllocError>
    requires count { before.trees ≤ length trees.old }
    requires onward { before.place ≤ place }
    requires within { place ≤ length text.now }
    ensures { IfOk result (λ done. done ≡ true → trees.new ≡ added keep (take before.trees trees.old) (made_by around.now text.now before.place place (drop before.trees trees.old))) }
{
    match keep {
        Keep::Kept => make_kept(trees, around, text, before, place),
        Keep::Hidden => {
            trees.cut(before.trees as usize);
            Ok(true)
        }
    }
}

/// What a form makes of the trees since it began. Says whether it did.
#[inline(always)]
fn make_kept(
    trees: &mut PlacedForest<'_>,
    around: &Around,
    text: &Text,
    before: Before,
    place: usize,
) -> Result<bool, AllocError>
    requires count { before.trees ≤ length trees.old }
    requires onward { before.place ≤ place }
    requires within { place ≤ length text.now }
    ensures { IfOk result (λ done. done ≡ true → trees.new ≡ take before.trees trees.old ++ made_by around.now text.now before.place place (drop before.trees trees.old)) }
{
    match around {
        Around::Try | Around::Label(_) | Around::Local => Ok(true),
        Around::Skip => {
            trees.cut(before.trees as usize);
            Ok(true)
        }
        Around::Text => {
            let from = before.place as usize;
            trees.cut(before.trees as usize);
            trees.push_leaf(&text.characters()[from..place], from)
        }
        Around::Build(used, symbol) => {
            trees.build(&used.shape, symbol.as_str(), before.trees as usize)
        }
    }
}

/// The trees after so many become one, where trees are kept. Says whether they did.
pub(crate) fn fold(
    trees: &mut PlacedForest<'_>,
    keep: Keep,
    used: &ChainBuilder,
    count: usize,
) -> Result<bool, AllocError>
    requires { count ≤ length trees.old }
    ensures { IfOk result (λ done. done ≡ true → trees.new ≡ tape_folded_by keep used.now count trees.old) }
{
    match keep {
        Keep::Kept => trees.build(&used.shape, "", count),
        Keep::Hidden => Ok(true),
    }
}
