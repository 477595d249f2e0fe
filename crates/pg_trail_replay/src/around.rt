//! Forms around a part: first the part, and then the form's effect on its result.

ghost use Rattle.std.specs.Prelude.{◌≡◌, ◌∷◌, ◌++◌, [], length, take, drop, set, slice_get, Some, IfOk, OnOk};
ghost use Rattle.pg_language.specs.Derives.{span, made_by};
ghost use Rattle.pg_trail_replay.specs.Tasks.{close, told, with_blank, is_place, around_turn, given_by, makes_empty_leaf, blank_after, closed_table, closed_forest, close_turn};
ghost use Rattle.pg_trail_replay.specs.View.{state_of, loose_of, closing_of};

use crate::looseness::{inside_form, is_dropped, joins, leaves_out};
use crate::replayer::Replayer;
use crate::step::build;
use crate::task::{Closing, Halt, ShortTask, Start, Task, counted};
use pg_grammar_form::{Around, NodeId};
use pg_table::Table;
use pg_text::Text;
use pg_tree::Forest;
use std::alloc::AllocError;

impl<'a> Replayer<'a> {
    /// Enters the part, and then closes the form. If the form at this node is known to consume nothing here and to make an empty
    /// leaf, pushes that leaf at once.
    pub(crate) fn enter_around(
        &mut self,
        node: NodeId,
        around: &'a Around,
        part: NodeId,
    ) -> Result<Option<Halt>, AllocError>
        ensures { IfOk result (λ halt. told halt (state_of self.new) ≡ around_turn around.now node part (state_of self.old)) }
    {
        if self.is_blank(node) {
            self.forest.push_leaf(&[])?;
            return Ok(None);
        }
        let operators = counted(self.table.operators().len())?;
        let from = self.start()?;
        let closing = self.closing(node, around, operators, from);
        self.set_loose(inside_form(around, self.loose));
        self.go_on(&[Task::Close(closing), Task::Short(ShortTask::Node(part))])
    }

    /// The task that closes the form at the node, whose part begins at `from`.
    fn closing(&self, node: NodeId, around: &'a Around, operators: u32, from: Start) -> Closing<'a>
        ensures { closing_of result ≡ close around.now node from.place from.trees operators from.items (loose_of self.now.loose) }
    {
        Closing {
            around,
            loose: self.loose,
            node,
            operators,
            from,
        }
    }

    /// Closes a form: turns the trees and the table of its part into its own.
    pub(crate) fn close(
        &mut self,
        text: &Text,
        closing: &Closing<'a>,
    ) -> Result<Option<Halt>, AllocError>
        ensures { IfOk result (λ halt. told halt (state_of self.new) ≡
            close_turn text.now closing.now.around.now closing.now.node closing.now.from.place closing.now.from.trees closing.now.operators closing.now.from.items (loose_of closing.now.loose) (state_of self.old)) }
    {
        let (around, place) = (closing.around, closing.from.place as usize);
        close_forest(text, closing, self.place, &mut self.forest)?;
        close_table(around, closing.operators as usize, &mut self.table);
        self.note_blank(around, closing.node, place, closing.from.items as usize);
        self.set_loose(closing.loose);
        Ok(None)
    }

    /// Remembers the node if its form makes an empty leaf and consumed nothing.
    fn note_blank(&mut self, around: &Around, node: NodeId, place: usize, items: usize)
        ensures { state_of self.new ≡ with_blank (blank_after around.now node place items (state_of self.old)) (state_of self.old) }
    {
        if makes_empty_leaf(around) && self.is_still(place, items) {
            self.keep_blank(node);
        }
    }

    /// Remembers that the form at the node consumes nothing here and makes an empty leaf.
    fn keep_blank(&mut self, node: NodeId)
        ensures { state_of self.new ≡ with_blank (set self.old.blank.items node (Some self.old.place)) (state_of self.old) }
    {
        let number = node.index();
        if number < self.blank.len() {
            self.blank[number] = Some(self.place);
        }
    }

    /// Whether the form at the node is known to do so here.
    fn is_blank(&self, node: NodeId) -> bool
        ensures { result ≡ is_place self.now.place (slice_get self.now.blank.items node) }
    {
        match self.blank.get(node.index()) {
            Some(Some(place)) => *place == self.place,
            Some(None) | None => false,
        }
    }
}

/// Whether the form makes an empty leaf from a part that consumes nothing.
fn makes_empty_leaf(around: &Around) -> bool
    ensures { result ≡ makes_empty_leaf around.now }
{
    match around {
        Around::Text => true,
        Around::Build(used, _) => joins(&used.shape),
        Around::Try | Around::Skip | Around::Label(_) | Around::Local => false,
    }
}

/// Turns the trees of the part, which ends at `to`, into those that the form gives.
fn close_forest(
    text: &Text,
    closing: &Closing<'_>,
    to: usize,
    forest: &mut Forest,
) -> Result<(), AllocError>
    ensures { OnOk result (forest.new ≡
        closed_forest closing.now.around.now (loose_of closing.now.loose) text.now closing.now.from.place to closing.now.from.trees forest.old) }
{
    let (around, trees) = (closing.around, closing.from.trees as usize);
    if is_dropped(&closing.loose) {
        cut(trees, forest);
        return Ok(());
    }
    if forest.len() <= trees && leaves_out(around, &closing.loose) {
        return Ok(());
    }
    make_forest(text, around, closing.from.place as usize, to, trees, forest)
}

/// Turns the trees after the first `trees` into those that the form makes.
fn make_forest(
    text: &Text,
    around: &Around,
    from: usize,
    to: usize,
    trees: usize,
    forest: &mut Forest,
) -> Result<(), AllocError>
    ensures { OnOk result (forest.new ≡ take trees forest.old ++ made_by around.now text.now from to (drop trees forest.old)) }
{
    match around {
        Around::Try | Around::Label(_) | Around::Local => Ok(()),
        Around::Text => {
            cut(trees, forest);
            forest.push_leaf(span(text.characters(), from, to))?;
            Ok(())
        }
        Around::Skip => {
            cut(trees, forest);
            Ok(())
        }
        Around::Build(used, symbol) => build(&used.shape, symbol.as_str(), trees, forest),
    }
}

/// Drops the trees after the first `trees`.
fn cut(trees: usize, forest: &mut Forest)
    ensures { forest.new ≡ take trees forest.old }
{
    forest.cut(trees.min(forest.len()));
}

/// The characters between two places.
fn span(characters: &[char], from: usize, to: usize) -> &[char]
    ensures { result.now ≡ span characters.now from to }
{
    let to = to.min(characters.len());
    &characters[from.min(to)..to]
}

/// Drops the operators that a part of `local` declared.
fn close_table(around: &Around, operators: usize, table: &mut Table)
    ensures { table.new ≡ closed_table around.now operators table.old }
{
    match around {
        Around::Try | Around::Text | Around::Skip | Around::Build(_, _) | Around::Label(_) => {}
        Around::Local => table.cut(operators),
    }
}
